//! Texts that lie in the value itself where they are short.

ghost use Rattle.std.specs.Prelude.{◌≡◌, ◌≤◌, ◌+◌, ◌++◌, length, take, IfOk, IsOk, IsUtf8};
ghost use Rattle.std.specs.Prelude.{string_bytes};

use lists::List;
use std::alloc::{AllocError, Global};
use std::fmt;
use std::hash::{Hash, Hasher};
use std::marker::Model;

/// How many bytes a text may have to lie in the value itself.
pub const SHORT_TEXT: usize = 30;

/// An owned text, which contracts see as its bytes in UTF-8. A short one takes no memory beyond its 32
/// bytes, a longer one takes one block of memory.
#[derive(Drop)]
pub struct Text {
    form: Form,
}

/// Texts, in order.
pub type TextList = List<Text>;

/// Where the bytes of a text lie.
#[derive(Drop)]
enum Form {
    /// The first `len` bytes of `bytes`; what stands behind them is anything.
    Short { len: u8, bytes: [u8; SHORT_TEXT] },
    /// On the heap.
    Long(String),
}

impl Model for Text {
    ghost use Rattle.std.specs.Prelude.{ℕ, List};
    ghost use Rattle.tile_types.specs.Texts.{form_bytes, IsForm};

    ghost Value = { List ℕ };

    ghost view = { λ t. form_bytes t.form };

    ghost invariant = { λ t. IsForm t.form };
}

impl Text {
    /// A copy of a text.
    pub fn new(alloc: Global, text: &str) -> Result<Text, AllocError>
        ensures value { IfOk result (λ t. t ≡ text.now) }
        ensures short { length text.now ≤ SHORT_TEXT → IsOk result }
    {
        Text::from_prefix(alloc, text.as_bytes(), text.len())
    }

    /// The text of the first `len` bytes. More bytes behind them make it faster.
    #[inline(always)]
    pub fn from_prefix(alloc: Global, bytes: &[u8], len: usize) -> Result<Text, AllocError>
        requires within { len ≤ length bytes.now }
        requires utf8 { IsUtf8 (take len bytes.now) }
        ensures value { IfOk result (λ t. t ≡ take len bytes.now) }
        ensures short { len ≤ SHORT_TEXT → IsOk result }
    {
        if SHORT_TEXT < len {
            return long_text(alloc, &bytes[..len]);
        }
        match bytes.first_chunk::<SHORT_TEXT>() {
            Some(block) => Ok(block_text(block, len)),
            None => Ok(short_text(&bytes[..len])),
        }
    }

    /// The text of two, one behind the other.
    pub fn of_two(alloc: Global, front: &str, back: &str) -> Result<Text, AllocError>
        ensures value { IfOk result (λ t. t ≡ front.now ++ back.now) }
        ensures short { length front.now + length back.now ≤ SHORT_TEXT → IsOk result }
    {
        if front.len() <= SHORT_TEXT && back.len() <= SHORT_TEXT - front.len() {
            return Ok(short_text_of_two(front, back));
        }
        let mut whole = String::with_capacity(alloc, front.len() + back.len())?;
        whole.push_str(front)?;
        whole.push_str(back)?;
        Ok(Text {
            form: Form::Long(whole),
        })
    }

    /// The text as a string slice.
    pub fn as_str(&self) -> &str
        ensures value { result.now ≡ self.now }
        ensures utf8 { IsUtf8 self.now }
    {
        match &self.form {
            Form::Short { len, bytes } => {
                // Every constructor asks for UTF-8.
                unsafe { str::from_utf8_unchecked(&bytes[..*len as usize]) }
            }
            Form::Long(text) => text.as_str(),
        }
    }

    /// The same text again.
    pub fn copy(&self, alloc: Global) -> Result<Text, AllocError>
        ensures value { IfOk result (λ t. t ≡ self.now) }
        ensures short { length self.now ≤ SHORT_TEXT → IsOk result }
    {
        match &self.form {
            Form::Short { len, bytes } => Ok(block_text(bytes, usize::from(*len))),
            Form::Long(text) => Text::new(alloc, text.as_str()),
        }
    }

    /// The text with another behind it.
    pub fn followed_by(&self, alloc: Global, more: &str) -> Result<Text, AllocError>
        ensures value { IfOk result (λ t. t ≡ self.now ++ more.now) }
        ensures short { length self.now + length more.now ≤ SHORT_TEXT → IsOk result }
    {
        match &self.form {
            Form::Short { len, bytes } if usize::from(*len) + more.len() <= SHORT_TEXT => {
                Ok(short_followed_by(*len, *bytes, more))
            }
            _ => Text::of_two(alloc, self.as_str(), more),
        }
    }
}

/// A text in the value itself, and another behind it for which there is room.
fn short_followed_by(len: u8, bytes: [u8; SHORT_TEXT], more: &str) -> Text
    requires fits { len + length more.now ≤ SHORT_TEXT }
    requires utf8 { IsUtf8 (take len bytes) }
    ensures { result ≡ take len bytes ++ more.now }
{
    let start = usize::from(len);
    let end = start + more.len();
    let mut bytes = bytes;
    bytes[start..end].copy_from_slice(more.as_bytes());
    Text {
        form: Form::Short {
            len: end as u8,
            bytes,
        },
    }
}

/// Two texts in the value itself, one behind the other.
fn short_text_of_two(front: &str, back: &str) -> Text
    requires fits { length front.now + length back.now ≤ SHORT_TEXT }
    ensures { result ≡ front.now ++ back.now }
{
    let mut bytes = [0; SHORT_TEXT];
    bytes[..front.len()].copy_from_slice(front.as_bytes());
    short_followed_by(front.len() as u8, bytes, back)
}

/// A text in the value itself, of which a whole block is moved: that takes a few instructions, and any
/// other length a call.
#[inline(always)]
fn block_text(block: &[u8; SHORT_TEXT], len: usize) -> Text
    requires fits { len ≤ SHORT_TEXT }
    requires utf8 { IsUtf8 (take len block.now) }
    ensures { result ≡ take len block.now }
{
    Text {
        form: Form::Short {
            len: len as u8,
            bytes: *block,
        },
    }
}

/// A text in the value itself.
fn short_text(text: &[u8]) -> Text
    requires fits { length text.now ≤ SHORT_TEXT }
    requires utf8 { IsUtf8 text.now }
    ensures { result ≡ text.now }
{
    let mut bytes = [0; SHORT_TEXT];
    bytes[..text.len()].copy_from_slice(text);
    Text {
        form: Form::Short {
            len: text.len() as u8,
            bytes,
        },
    }
}

/// A text on the heap.
#[inline(never)]
fn long_text(alloc: Global, text: &[u8]) -> Result<Text, AllocError>
    requires { IsUtf8 text.now }
    ensures { IfOk result (λ t. t ≡ text.now) }
{
    // The caller's bytes are UTF-8.
    let text = unsafe { str::from_utf8_unchecked(text) };
    Ok(Text {
        form: Form::Long(String::from_str(alloc, text)?),
    })
}

/// The text of a string, which is kept where it lies.
impl From<String> for Text {
    ghost from_gives = { λ string text. text ≡ string_bytes string };

    fn from(string: String) -> Text {
        Text {
            form: Form::Long(string),
        }
    }
}

impl fmt::Debug for Text {
    fn fmt<W: fmt::Write>(&self, f: &mut fmt::Formatter<W>) -> fmt::Result {
        fmt::Debug::fmt(&self.as_str(), f)
    }
}

impl PartialEq for Text {
    ghost use Rattle.std.specs.Prelude.{nat_eq};
    ghost use Rattle.std.specs.Cmp.Lexicographic.{pointwise, nat_list_eq_equiv};
    ghost use Rattle.std.specs.Cmp.{partial_equiv_from_equiv};

    ghost eq = { pointwise nat_eq };

    ghost laws = { partial_equiv_from_equiv nat_list_eq_equiv };

    fn eq(&self, other: &Text) -> bool {
        self.as_str() == other.as_str()
    }
}

impl Eq for Text {
    ghost use Rattle.std.specs.Cmp.Lexicographic.{nat_list_eq_equiv};

    ghost laws = { nat_list_eq_equiv };
}

impl Hash for Text {
    ghost use Rattle.std.specs.Hash as fed;
    ghost use Rattle.std.specs.Cmp.Rules.{hashing};
    ghost use Rattle.std.proofs.Common.{rules};

    ghost hash_input = { fed.str };

    ghost respects_eq = { Prim.search (hashing, rules) };

    fn hash<H: Hasher>(&self, state: &mut H) {
        self.as_str().hash(state);
    }
}
