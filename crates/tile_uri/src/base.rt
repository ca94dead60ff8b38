//! Bases, below which texts are resolved.

ghost use Rattle.std.specs.Prelude.{◌≡◌, ◌≤◌, ◌++◌, false, length, take, IfOk, IfSome, option_map, string_bytes};
ghost use Rattle.url.specs.declared.scheme.SchemeType.TheVariants.{SpecialNotFile};
ghost use Rattle.url.specs.Parts.{kind_of, serialize};
ghost use Rattle.tile_uri.specs.Addresses.{Answers, IsPathAddress, address_of, has_control_or_space, join, within_limit};
ghost use Rattle.tile_uri.specs.Bases as bases;
ghost use Rattle.tile_uri.specs.Bases.{IsFolder};
ghost use Rattle.tile_uri.specs.Templates.{fill};

use crate::address::{ADDRESS_LIMIT, Address, check};
use crate::error::{UriError, cause_of};
use crate::plain_path::{is_plain_path, is_plain_path_from};
use crate::template::Template;
use std::alloc::{AllocError, Global};
use std::marker::Model;
use tile_types::Text;
use url::{Position, Url};

/// The address of a document, below which its texts are resolved. Contracts see its text.
#[derive(Drop)]
pub struct Base {
    url: Url,
    /// The text up to the last slash of the path, where the scheme is special and isn't `file`.
    folder: Option<String>,
}

impl Model for Base {
    ghost use Rattle.std.specs.Prelude.{List, ℕ, option_map, string_bytes};
    ghost use Rattle.url.specs.Parts.{serialize};
    ghost use Rattle.tile_uri.specs.Bases.{IsBase};

    ghost Value = { List ℕ };

    ghost view = { λ b. serialize b.url };

    ghost invariant = { λ b. IsBase b.url (option_map string_bytes b.folder) };
}

impl Base {
    /// The base of a text that stands for an address alone (URL Standard, section 4.4).
    pub fn new(alloc: Global, text: &str) -> Result<Base, UriError>
        ensures { Answers result (address_of text.now) }
    {
        let url = match Url::parse(alloc, text) {
            Ok(url) => url,
            Err(error) => return Err(cause_of(error)),
        };
        match check(&url) {
            Ok(()) => match copy_of_folder(alloc, &url) {
                Ok(folder) => Ok(Base { url, folder }),
                Err(_) => Err(UriError::OutOfMemory),
            },
            Err(cause) => Err(cause),
        }
    }

    /// The address that a written text stands for below this base (URL Standard, section 4.4).
    pub fn resolve(&self, alloc: Global, written: &str) -> Result<Address, UriError>
        ensures { Answers result (join self.now written.now) }
    {
        if let Some(folder) = &self.folder
            && is_plain_path(written.as_bytes())
        {
            return address_below(alloc, folder.as_str(), written);
        }
        self.parse_below(alloc, written)
    }

    /// The address that a filled template stands for below this base.
    pub fn resolve_filled(
        &self,
        alloc: Global,
        template: &Template,
        level: u8,
        x: u32,
        y: u32,
        z: u32,
    ) -> Result<Address, UriError>
        ensures { Answers result (join self.now (fill template.now level x y z)) }
    {
        if let Some(folder) = &self.folder {
            let folder = folder.as_str();
            let whole = match template.fill_behind(alloc, folder, level, x, y, z) {
                Ok(whole) => whole,
                Err(_) => return Err(UriError::OutOfMemory),
            };
            if is_plain_path_from(whole.as_str().as_bytes(), folder.len()) {
                return address_of_path(whole);
            }
        }
        match template.fill(alloc, level, x, y, z) {
            Ok(written) => self.parse_below(alloc, written.as_str()),
            Err(_) => Err(UriError::OutOfMemory),
        }
    }

    /// The address of any text below this base, by the parser.
    #[inline(never)]
    fn parse_below(&self, alloc: Global, written: &str) -> Result<Address, UriError>
        ensures { Answers result (join self.now written.now) }
    {
        let url = match self.url.join(written) {
            Ok(url) => url,
            Err(error) => return Err(cause_of(error)),
        };
        match check(&url) {
            Ok(()) => Address::of_url(alloc, &url),
            Err(cause) => Err(cause),
        }
    }
}

/// The address of a plain path below a folder, which the parser need not read.
fn address_below(alloc: Global, folder: &str, path: &str) -> Result<Address, UriError>
    requires folder { length folder.now ≤ ADDRESS_LIMIT }
    requires address { IsPathAddress (folder.now ++ path.now) }
    ensures { Answers result (within_limit (folder.now ++ path.now)) }
{
    if ADDRESS_LIMIT - folder.len() < path.len() {
        return Err(UriError::TooLong);
    }
    match Text::of_two(alloc, folder, path) {
        Ok(text) => Ok(Address::of_path(text)),
        Err(_) => Err(UriError::OutOfMemory),
    }
}

/// The same of the whole text. It takes no memory.
fn address_of_path(whole: Text) -> Result<Address, UriError>
    requires { IsPathAddress whole }
    ensures { result ≡ within_limit whole }
{
    if ADDRESS_LIMIT < whole.as_str().len() {
        return Err(UriError::TooLong);
    }
    Ok(Address::of_path(whole))
}

/// The folder of an address, in memory of its own.
fn copy_of_folder(alloc: Global, url: &Url) -> Result<Option<String>, AllocError>
    requires clean { has_control_or_space (serialize url.now) ≡ false }
    requires short { length (serialize url.now) ≤ ADDRESS_LIMIT }
    ensures { IfOk result (λ o. IfSome (option_map string_bytes o) (IsFolder url.now)) }
{
    match folder_of(url) {
        Some(folder) => Ok(Some(String::from_str(alloc, folder)?)),
        None => Ok(None),
    }
}

/// The text up to the last slash of the path, where the scheme is special and isn't `file`.
fn folder_of(url: &Url) -> Option<&str>
    ensures special { IfSome result (λ folder. kind_of url.now ≡ SpecialNotFile) }
    ensures value { IfSome result (λ folder. folder.now ≡ bases.folder_of url.now) }
    ensures front { IfSome result
        (λ folder. folder.now ≡ take (length folder.now) (serialize url.now)) }
{
    if !url.is_special() || url.scheme() == "file" {
        return None;
    }
    let slash = url
        .path()
        .as_bytes()
        .iter()
        .rposition(|byte| *byte == b'/')?;
    let head = url.slice(Position::BeforeScheme, Position::BeforePath);
    Some(&url.as_str()[..head.len() + slash + 1])
}
