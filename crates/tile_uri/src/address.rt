//! The limit of addresses, the test of a parsed URL, and which address names an external tileset.

ghost use Rattle.std.specs.Prelude.{◌≡◌, ◌≤◌, All, length, Ok, true};
ghost use Rattle.url.specs.Parser.{parse_url};
ghost use Rattle.url.specs.Parts.{serialize, IsValid};
ghost use Rattle.tile_uri.specs.Addresses as addresses;
ghost use Rattle.tile_uri.specs.Addresses.{Answers, IsAddress, IsPathAddress, IsVisible, checked, is_address};

use crate::error::UriError;
use std::alloc::Global;
use std::marker::Model;
use tile_types::Text;
use url::Url;

/// How many bytes an address may have, and a template.
pub const ADDRESS_LIMIT: usize = 4096;

/// The address of a document or a content, which contracts see as its text: the URL Standard's
/// parse gives a URL of this very text, and no byte of it is a C0 control or a space.
#[derive(Drop)]
pub struct Address {
    text: Text,
    /// Whether it names an external tileset, which is asked of each content.
    external: bool,
}

impl Model for Address {
    ghost use Rattle.std.specs.Prelude.{◌≡◌, List, ℕ};
    ghost use Rattle.tile_uri.specs.Addresses.{IsAddress, is_external};

    ghost Value = { List ℕ };

    ghost view = { λ a. a.text };

    ghost invariant = { λ a. IsAddress a.text × (a.external ≡ is_external a.text) };
}

impl Address {
    /// The text of the address, in ASCII (URL Standard, section 4.5, "URL serializing").
    pub fn text(&self) -> &Text
        ensures value { result.now ≡ self.now }
        ensures address { is_address self.now ≡ true }
        ensures short { length self.now ≤ ADDRESS_LIMIT }

        // No space, no line feed and no other C0 control, which follows from `address`.
        ensures visible { All IsVisible self.now }
    {
        &self.text
    }

    /// The text alone, which is moved out.
    pub fn into_text(self) -> Text
        ensures value { result ≡ self }
        ensures address { is_address self ≡ true }
        ensures short { length self ≤ ADDRESS_LIMIT }
    {
        self.text
    }

    /// The address that is the text of a URL.
    pub(crate) fn of_url(alloc: Global, url: &Url) -> Result<Address, UriError>
        requires address { IsAddress (serialize url.now) }
        requires parsed { parse_url None (serialize url.now) ≡ Ok url.now }
        ensures { Answers result (Ok (serialize url.now)) }
    {
        let external = ends_in_json(url.path().as_bytes());
        match Text::new(alloc, url.as_str()) {
            Ok(text) => Ok(Address { text, external }),
            Err(_) => Err(UriError::OutOfMemory),
        }
    }

    /// The address of a text that ends with its path.
    pub(crate) fn of_path(text: Text) -> Address
        requires address { IsPathAddress text }
        requires short { length text ≤ ADDRESS_LIMIT }
        ensures { result ≡ text }
    {
        let external = ends_in_json(text.as_str().as_bytes());
        Address { text, external }
    }
}

/// Whether a parsed URL is an address, or the first cause why not. Its text holds no C0 control, so
/// that only a space can be in the way.
pub(crate) fn check(url: &Url) -> Result<(), UriError>
    ensures valid { IsValid url.now }
    ensures value { result ≡ checked (serialize url.now) }
{
    let text = url.as_str();
    if text.as_bytes().contains(&b' ') {
        return Err(UriError::NotAnAddress);
    }
    if ADDRESS_LIMIT < text.len() {
        return Err(UriError::TooLong);
    }
    Ok(())
}

/// Whether the address names an external tileset (OGC 22-025r4, "External tilesets"): its path ends
/// in `.json`, in letters of any case. It takes no memory.
pub fn is_external(address: &Address) -> bool
    ensures { result ≡ addresses.is_external address.now }
{
    address.external
}

fn ends_in_json(path: &[u8]) -> bool
    ensures { result ≡ addresses.ends_in_json path.now }
{
    match path.last_chunk::<5>() {
        Some(end) => end.eq_ignore_ascii_case(b".json"),
        None => false,
    }
}
