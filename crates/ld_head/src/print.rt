//! The lines of a reply's head.
ghost use Rattle.std.specs.Prelude.{◌≡◌, ◌++◌, OnOk};
ghost use Rattle.std.specs.Fmt.{decimal};
ghost use Rattle.ld_head.specs.Replies.{field, phrase, request_fields, status_line, text_if};

use itoa::Buffer;
use ld_tree::NoMemory;

/// The phrase of a status that this server gives (RFC 9110, section 15; RFC 6585, section 5).
fn phrase(status: u16) -> &'static str
    ensures { result.now ≡ phrase status }
{
    match status {
        200 => "OK",
        400 => "Bad Request",
        404 => "Not Found",
        405 => "Method Not Allowed",
        409 => "Conflict",
        411 => "Length Required",
        413 => "Content Too Large",
        417 => "Expectation Failed",
        422 => "Unprocessable Content",
        431 => "Request Header Fields Too Large",
        500 => "Internal Server Error",
        502 => "Bad Gateway",
        503 => "Service Unavailable",
        _ => "",
    }
}

pub(crate) fn print_status(status: u16, out: &mut Vec<u8>) -> Result<(), NoMemory>
    ensures { OnOk result (out.new.items ≡ out.old.items ++ status_line status) }
{
    let mut buffer = Buffer::new();
    out.extend_from_slice(b"HTTP/1.1 ")?;
    out.extend_from_slice(buffer.format(status).as_bytes())?;
    out.extend_from_slice(b" ")?;
    out.extend_from_slice(phrase(status).as_bytes())?;
    out.extend_from_slice(b"\r\n")?;
    Ok(())
}

pub(crate) fn print_field(name: &[u8], value: &[u8], out: &mut Vec<u8>) -> Result<(), NoMemory>
    ensures { OnOk result (out.new.items ≡ out.old.items ++ field name.now value.now) }
{
    out.extend_from_slice(name)?;
    out.extend_from_slice(b": ")?;
    out.extend_from_slice(value)?;
    out.extend_from_slice(b"\r\n")?;
    Ok(())
}

pub(crate) fn print_field_if(
    is_there: bool,
    name: &[u8],
    value: &[u8],
    out: &mut Vec<u8>,
) -> Result<(), NoMemory>
    ensures { OnOk result (out.new.items ≡ out.old.items ++ text_if is_there (field name.now value.now)) }
{
    if is_there {
        print_field(name, value, out)?;
    }
    Ok(())
}

pub(crate) fn print_number(name: &[u8], number: u64, out: &mut Vec<u8>) -> Result<(), NoMemory>
    ensures { OnOk result (out.new.items ≡ out.old.items ++ field name.now (decimal number)) }
{
    let mut buffer = Buffer::new();
    print_field(name, buffer.format(number).as_bytes(), out)
}

pub(crate) fn print_request_fields(
    fields: Option<(u32, u64)>,
    out: &mut Vec<u8>,
) -> Result<(), NoMemory>
    ensures { OnOk result (out.new.items ≡ out.old.items ++ request_fields fields) }
{
    if let Some((number, version)) = fields {
        print_number(b"LD-Request", u64::from(number), out)?;
        print_number(b"LD-Version", version, out)?;
    }
    Ok(())
}
