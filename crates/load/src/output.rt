// What is printed of a load: a line for each exchange, and one for the report.
ghost use Rattle.std.specs.Prelude.{◌≡◌, ◌++◌, IfOk, string_bytes};
ghost use Rattle.load.specs.Output.{exchange_line, report_line, numbers_shown, output_of};

use link::TracedFrame;
use loading::Report;
use script::Hex;
use std::alloc::{AllocError, Global};

// The whole output.
pub fn output_of(
    heap: Global,
    exchanges: &[TracedFrame],
    report: &Report,
) -> Result<String, AllocError>
    ensures { IfOk result (λ t. string_bytes t ≡ output_of exchanges.now report.now) }
{
    let mut output = String::new(heap);
    for exchange in exchanges {
        add_exchange(&mut output, &exchange.frame, exchange.reply)?;
    }
    add_report(&mut output, report)?;
    Ok(output)
}

// Adds a line for a frame, with the reply to it.
fn add_exchange(
    output: &mut String,
    frame: &[u8; 8],
    reply: Option<[u8; 8]>,
) -> Result<(), AllocError>
    ensures { IfOk result (λ _. string_bytes output.new ≡ string_bytes output.old ++ exchange_line (record { frame = frame.now; reply = reply })) }
{
    let frame = Hex(frame);
    match reply {
        Some(reply) => {
            let reply = Hex(&reply);
            writeln!(output, "F\t{frame}\t{reply}")?;
        }
        None => writeln!(output, "F\t{frame}\t-")?,
    }
    Ok(())
}

// Adds a line for the report.
fn add_report(output: &mut String, report: &Report) -> Result<(), AllocError>
    ensures { IfOk result (λ _. string_bytes output.new ≡ string_bytes output.old ++ report_line report.now) }
{
    output.push_str("R")?;
    add_numbers(output, &report.numbers())
}

// Adds the rest of a line: numbers, each behind a tab.
fn add_numbers(output: &mut String, numbers: &[u64]) -> Result<(), AllocError>
    ensures { IfOk result (λ _. string_bytes output.new ≡ string_bytes output.old ++ numbers_shown numbers.now) }
{
    for number in numbers {
        write!(output, "\t{number}")?;
    }
    output.push_str("\n")
}
