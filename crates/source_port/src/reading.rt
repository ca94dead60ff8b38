//! Reading a file or any other reader whole, within a limit, and what is answered where that fails.

ghost use Rattle.std.specs.Prelude.{◌≡◌, ◌≢◌, ◌<◌, ◌≤◌, Err, IfErr, IfOk, IfSome, IsOk, Ok, length};
ghost use Rattle.std.specs.Fs.{IsFile, file_type, metadata_len};
ghost use Rattle.std.specs.IoError.{error_kind};
ghost use Rattle.source_port.specs.Opening.{IsOpeningCause, IsReadingCause, RefusesOpening};

use crate::source::FetchError;
use std::alloc::Global;
use std::fs::Metadata;
use std::io::{ErrorKind, Read};
use std::rt::Files;
use std::{fs, io};

/// The bytes of a regular file, at most `limit` of them. What the path names is looked at first,
/// since a pipe that is opened waits for its other end.
pub(crate) fn read_file<R: Files>(
    rt: &R,
    alloc: Global,
    path: &str,
    limit: u32,
) -> Result<Vec<u8>, FetchError>
    ensures { IfOk result (λ bytes. length bytes.items ≤ limit) }
{
    let size = file_size(fs::metadata(rt, path))?;
    read_opened(fs::open(rt, path), alloc, size, limit)
}

/// The size of a regular file of which this is told. Anything else, as a folder, a pipe or a
/// device, is a fault.
fn file_size(told: io::Result<Metadata>) -> Result<u64, FetchError>
    ensures file { IfOk told (λ told. IsFile (file_type told)
        → result ≡ Ok (metadata_len told)) }
    ensures other { IfOk told (λ told. ¬ IsFile (file_type told)
        → result ≡ Err FetchError.Failed) }
    ensures unknown { IfErr told (λ error. RefusesOpening (error_kind error) result) }
{
    match told {
        Ok(metadata) if metadata.is_file() => Ok(metadata.len()),
        Ok(_) => Err(FetchError::Failed),
        Err(error) => Err(opening_cause(&error)),
    }
}

/// All that a file has which was opened, as `read_within` gives it, or why it wasn't opened.
pub(crate) fn read_opened<F: Read + Drop>(
    opened: io::Result<F>,
    alloc: Global,
    expected: u64,
    limit: u32,
) -> Result<Vec<u8>, FetchError>
    ensures bytes { IfOk opened (λ file. IfOk result (λ bytes.
        IfSome (F.remaining file) (λ left. bytes.items ≡ left))) }
    ensures within { IfOk result (λ bytes. length bytes.items ≤ limit) }
    ensures too_long { IfOk opened (λ file. result ≡ Err FetchError.TooLong
        → IfSome (F.remaining file) (λ left. limit < length left)) }
    ensures not_missing { IfOk opened (λ _. result ≢ Err FetchError.Missing) }
    ensures refused { IfErr opened (λ error. RefusesOpening (error_kind error) result) }
{
    match opened {
        Ok(file) => read_within(file, alloc, expected, limit),
        Err(error) => Err(opening_cause(&error)),
    }
}

/// All that the reader has left, at most `limit` bytes of it. There is room from the start for as many bytes
/// as are expected; how many come doesn't depend on that.
pub(crate) fn read_within<R: Read + Drop>(
    reader: R,
    alloc: Global,
    expected: u64,
    limit: u32,
) -> Result<Vec<u8>, FetchError>
    ensures bytes { IfOk result (λ bytes. IfSome (R.remaining reader) (λ left. bytes.items ≡ left)) }
    ensures within { IfOk result (λ bytes. length bytes.items ≤ limit) }
    ensures too_long { result ≡ Err FetchError.TooLong
        → IfSome (R.remaining reader) (λ left. limit < length left) }
    ensures not_missing { result ≢ Err FetchError.Missing }
{
    // One byte past the limit, and past what is expected, shows whether there are more.
    let most = u64::from(limit) + 1;
    let room = expected.saturating_add(1).min(most);
    let Ok(mut bytes) = Vec::with_capacity(alloc, room as usize) else {
        return Err(FetchError::OutOfMemory);
    };
    let mut front = reader.take(most);
    if let Err(error) = front.read_to_end(&mut bytes) {
        return Err(reading_cause(&error));
    }
    within_limit(bytes, limit)
}

/// The bytes, if there are at most `limit` of them. It takes no memory.
fn within_limit(bytes: Vec<u8>, limit: u32) -> Result<Vec<u8>, FetchError>
    ensures ok { IfOk result (λ kept.
        (kept.items ≡ bytes.items) × (length bytes.items ≤ limit)) }
    ensures within { length bytes.items ≤ limit → IsOk result }
    ensures too_long { IfErr result (λ e. e ≡ FetchError.TooLong) }
{
    if bytes.len() > limit as usize {
        return Err(FetchError::TooLong);
    }
    Ok(bytes)
}

/// Why a file isn't opened.
fn opening_cause(error: &io::Error) -> FetchError
    ensures { IsOpeningCause (error_kind error.now) result }
{
    match error.kind() {
        ErrorKind::NotFound => FetchError::Missing,
        ErrorKind::OutOfMemory => FetchError::OutOfMemory,
        _ => FetchError::Failed,
    }
}

/// Why an open file isn't read.
fn reading_cause(error: &io::Error) -> FetchError
    ensures { IsReadingCause (error_kind error.now) result }
{
    match error.kind() {
        ErrorKind::OutOfMemory => FetchError::OutOfMemory,
        _ => FetchError::Failed,
    }
}
