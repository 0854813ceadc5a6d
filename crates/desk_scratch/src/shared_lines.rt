ghost use Rattle.std.specs.Prelude.{◌≡◌, ◌++◌, codes, decimal, string_bytes, OnOk};
ghost use Rattle.desk_scratch.specs.SharedLines.{chain_line, compliance_line, name_line, version_line};

use desk_tables::Tables;
use desk_text::{Code, Name, digits_of};
use itoa::Buffer;
use std::alloc::AllocError;
use std::fmt::Write;

/// Appends the number in decimal digits.
pub(crate) fn push_number(out: &mut String, number: u128) -> Result<(), AllocError>
    ensures { OnOk result (string_bytes out.new ≡ string_bytes out.old ++ decimal number) }
{
    let mut buffer = Buffer::new();
    out.push_str(digits_of(&mut buffer, number))
}

/// Appends the line with the number of the tables.
#[tactic(auto, unfolding(crate::specs::SharedLines::version_line))]
pub(crate) fn push_version_line(out: &mut String, tables: &Tables) -> Result<(), AllocError>
    ensures { OnOk result (string_bytes out.new ≡ string_bytes out.old ++ version_line tables.now.lists) }
{
    out.push_str("version ")?;
    push_number(out, u128::from(tables.number()))?;
    out.push_str("\n")?;
    Ok(())
}

/// Appends the line with a name.
#[tactic(auto, unfolding(crate::specs::SharedLines::name_line))]
pub(crate) fn push_name_line(out: &mut String, name: &Name) -> Result<(), AllocError>
    ensures { OnOk result (string_bytes out.new ≡ string_bytes out.old ++ name_line name.now) }
{
    writeln!(out, "name {name}")
}

/// Appends the line with the codes of a chain.
#[tactic(auto, unfolding(crate::specs::SharedLines::chain_line))]
pub(crate) fn push_chain_line(out: &mut String, chain: &[Code]) -> Result<(), AllocError>
    ensures { OnOk result (string_bytes out.new ≡ string_bytes out.old ++ chain_line chain.now) }
{
    out.push_str("chain")?;
    for code in chain {
        push_link(out, code)?;
    }
    out.push_str("\n")
}

/// Appends a space and the code.
fn push_link(out: &mut String, code: &Code) -> Result<(), AllocError>
    ensures { OnOk result (string_bytes out.new ≡ string_bytes out.old ++ (codes " " ++ code.now)) }
{
    write!(out, " {code}")
}

/// Appends the line that says whether nothing is breached.
pub(crate) fn push_compliance_line(out: &mut String, compliant: bool) -> Result<(), AllocError>
    ensures { OnOk result (string_bytes out.new ≡ string_bytes out.old ++ compliance_line compliant) }
{
    out.push_str(if compliant {
        "compliant\n"
    } else {
        "not-compliant\n"
    })
}
