// Replies as they are printed.
ghost use Rattle.std.specs.Prelude.{◌≡◌, ◌++◌, OnOk};
ghost use Rattle.book.specs.Answers.{replied};
ghost use Rattle.book.specs.Printed.{printed, told};

use crate::answer::Reply;
use crate::fault::BookFault;
use itoa::{Buffer, Integer};
use std::alloc::AllocError;

fn push_number<I: Integer>(out: &mut Vec<u8>, n: I) -> Result<(), AllocError>
    ensures { OnOk result (out.new.items ≡ out.old.items ++ I.text n) }
{
    out.extend_from_slice(Buffer::new().format(n).as_bytes())
}

// Piece by piece: through the `Display` of replies and faults it took more than twice the time.
fn push_told(out: &mut Vec<u8>, reply: Result<Reply, BookFault>) -> Result<(), AllocError>
    ensures { OnOk result (out.new.items ≡ out.old.items ++ told (replied reply)) }
{
    match reply {
        Ok(reply) => out.extend_from_slice(reply.text().as_bytes()),
        Err(fault) => {
            out.extend_from_slice(b"refused\t")?;
            push_number(out, fault.number())
        }
    }
}

// Adds the line that is printed for a reply to the line of that number.
pub fn print_reply(
    out: &mut Vec<u8>,
    number: u32,
    reply: Result<Reply, BookFault>,
) -> Result<(), AllocError>
    ensures { OnOk result (out.new.items ≡ out.old.items ++ printed number (replied reply)) }
{
    push_number(out, number)?;
    out.push(b'\t')?;
    push_told(out, reply)?;
    out.push(b'\n')?;
    Ok(())
}
