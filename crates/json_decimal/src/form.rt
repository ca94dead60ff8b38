//! The forms of JSON values.
ghost use Rattle.std.specs.Prelude.{◌≡◌};
ghost use Rattle.json_decimal.specs.Entries.{form_by, inside_as};

/// The form of a JSON value (RFC 8259, section 3).
#[derive(Clone, Copy, Debug, PartialEq, Eq)]
pub enum JsonForm {
    Null,
    True,
    False,
    Number,
    Words,
    List,
    Object,
}

/// The form of a value whose spelling begins with this byte.
#[inline(always)]
pub(crate) fn form_by(byte: u8) -> JsonForm
    ensures { result ≡ form_by byte }
{
    match byte {
        b'"' => JsonForm::Words,
        b'{' => JsonForm::Object,
        b'[' => JsonForm::List,
        b'n' => JsonForm::Null,
        b't' => JsonForm::True,
        b'f' => JsonForm::False,
        _ => JsonForm::Number,
    }
}

/// How many entries stand for what is inside a value of this form, whose entry has this extent.
#[inline(always)]
pub(crate) fn inside_as(form: JsonForm, extent: u32) -> usize
    ensures { result ≡ inside_as form extent }
{
    match form {
        JsonForm::List | JsonForm::Object => extent as usize,
        _ => 0,
    }
}
