//! Texts that take no memory.
ghost use Rattle.std.specs.Prelude.{◌≡◌, Bool, None};
ghost use Rattle.ld_head.specs.Outcomes.{reply};
ghost use Rattle.ld_head.specs.Replies.{interim_text};
ghost use Rattle.ld_head.specs.declared.outcome.Outcome.TheVariants.{NoMemory};

use crate::dialogue::Marks;

/// The text that asks for the body (RFC 9110, section 15.2.1).
pub fn interim_text() -> &'static [u8]
    ensures { result.now ≡ interim_text }
{
    b"HTTP/1.1 100 Continue\r\n\r\n"
}

/// The reply of want of memory, with no number and no version.
pub fn no_memory_reply(marks: Marks) -> &'static [u8]
    ensures { result.now ≡ reply None NoMemory marks }
{
    no_memory_text(marks.closes, marks.head_alone).as_bytes()
}

fn no_memory_text(closes: bool, head_alone: bool) -> &'static str
    ensures { (interim : Bool) → result.now ≡ reply None NoMemory (record { interim = interim; closes = closes; head_alone = head_alone }) }
{
    match (closes, head_alone) {
        (false, false) => {
            "HTTP/1.1 500 Internal Server Error\r\nContent-Type: application/json\r\nContent-Length: 19\r\n\r\n{\"own\":\"no memory\"}"
        }
        (false, true) => {
            "HTTP/1.1 500 Internal Server Error\r\nContent-Type: application/json\r\nContent-Length: 19\r\n\r\n"
        }
        (true, false) => {
            "HTTP/1.1 500 Internal Server Error\r\nContent-Type: application/json\r\nContent-Length: 19\r\nConnection: close\r\n\r\n{\"own\":\"no memory\"}"
        }
        (true, true) => {
            "HTTP/1.1 500 Internal Server Error\r\nContent-Type: application/json\r\nContent-Length: 19\r\nConnection: close\r\n\r\n"
        }
    }
}
