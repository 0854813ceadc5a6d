ghost use Rattle.std.specs.Prelude.{◌≡◌, ◌++◌, IfOk, OnOk};
ghost use Rattle.desk_report.specs.Lines.{line_of, record_lines};

use desk_edge::Record;
use desk_text::{Bytes, OutOfMemory, push_u128};
use std::alloc::Global;

/// The lines of the records, in order.
pub(crate) fn lines_of(alloc: Global, records: &[Record]) -> Result<Bytes, OutOfMemory>
    ensures { IfOk result (λ lines. lines ≡ record_lines records.now) }
{
    let mut lines = Bytes::start(alloc);
    for kept in records {
        push_line(kept, &mut lines)?;
    }
    Ok(lines)
}

/// Appends the line of the record: its kind, code and body, each but the last before a TAB, and LF behind them.
fn push_line(kept: &Record, out: &mut Bytes) -> Result<(), OutOfMemory>
    ensures { OnOk result (out.new ≡ out.old ++ line_of kept.now) }
{
    push_u128(out, kept.kind.into())?;
    out.push_all(b"\t")?;
    out.push_all(kept.code.as_slice())?;
    out.push_all(b"\t")?;
    out.push_all(kept.body.as_slice())?;
    out.push_all(b"\n")
}
