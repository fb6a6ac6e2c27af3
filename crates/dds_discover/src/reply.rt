//! How the reply to a line is printed.

ghost use Rattle.std.specs.Prelude.{OnOk};
ghost use Rattle.std.specs.Io.KnownBytes.{Appends};
ghost use Rattle.dds_discover.specs.Says.{reply_line};

use dds_base::Code;
use dds_script::{Fault, print};
use std::alloc::Global;
use std::io::Write;

/// Prints how a line was answered.
pub fn print_reply<W: Write>(
    alloc: Global,
    answered: Result<(), Code>,
    output: &mut W,
) -> Result<(), Fault>
    ensures printed { OnOk result
        (Appends (W.contents output.old) (W.contents output.new) (reply_line answered)) }
{
    match answered {
        Ok(()) => print(output, "reply ok\n"),
        Err(code) => {
            let number = code.number();
            print(output, format!(in alloc; "reply code {number}\n")?.as_str())
        }
    }
}
