ghost use Rattle.std.specs.Prelude.{◌≡◌, ◌++◌, string_bytes, true, IfOk, OnOk};
ghost use Rattle.std.specs.List.{flat_map};
ghost use Rattle.desk_model.specs.Lists.{is_kept};
ghost use Rattle.desk_scratch.specs.Uses.{asked_code_line, product_line, user_line, uses_text};

use crate::answer_source::AnswerSource;
use crate::blank_text::BlankText;
use crate::shared_lines::push_version_line;
use desk_model::{LineRow, ProductRow};
use desk_text::{Bytes, Code, OutOfMemory};
use std::alloc::{AllocError, Global};
use std::fmt::Write;

/// The answer on uses: which lines lead to a material or a part, and which products hold it.
///
/// The text has a line for each line that leads to the code and each product that holds it, and two more.
pub(crate) fn uses_text<S: AnswerSource>(
    alloc: Global,
    source: &S,
    code: &Code,
    blank: BlankText,
) -> Result<Bytes, OutOfMemory>
    requires { is_kept (S.lists source.now) code.now ≡ true }
    ensures { IfOk result (λ text. text ≡ uses_text (S.lists source.now) code.now) }
{
    let lines = source.users(alloc, code)?;
    let products = source.products_with(alloc, code)?;
    let mut text = blank.into_string();
    push_version_line(&mut text, source.tables())?;
    push_asked_code_line(&mut text, code)?;
    push_user_lines(&mut text, lines.as_slice())?;
    push_product_lines(&mut text, products.as_slice())?;
    Ok(Bytes::from(text.into_bytes()))
}

/// Appends what was asked.
#[tactic(auto, unfolding(crate::specs::Uses::asked_code_line))]
fn push_asked_code_line(out: &mut String, code: &Code) -> Result<(), AllocError>
    ensures { OnOk result (string_bytes out.new ≡ string_bytes out.old ++ asked_code_line code.now) }
{
    writeln!(out, "uses {code}")
}

/// Appends a line for the parent of each of these lines.
fn push_user_lines(out: &mut String, lines: &[LineRow]) -> Result<(), AllocError>
    ensures { OnOk result (string_bytes out.new ≡ string_bytes out.old ++ flat_map user_line lines.now) }
{
    for line in lines {
        push_user_line(out, line)?;
    }
    Ok(())
}

/// Appends the line on a user.
#[tactic(auto, unfolding(crate::specs::Uses::user_line))]
fn push_user_line(out: &mut String, line: &LineRow) -> Result<(), AllocError>
    ensures { OnOk result (string_bytes out.new ≡ string_bytes out.old ++ user_line line.now) }
{
    let (parent, count) = (line.parent, line.count);
    writeln!(out, "user {parent} {count}")
}

/// Appends a line for each of these products.
fn push_product_lines(out: &mut String, products: &[ProductRow]) -> Result<(), AllocError>
    ensures { OnOk result (string_bytes out.new ≡ string_bytes out.old ++ flat_map product_line products.now) }
{
    for product in products {
        push_product_line(out, product)?;
    }
    Ok(())
}

/// Appends the line on a product.
#[tactic(auto, unfolding(crate::specs::Uses::product_line))]
fn push_product_line(out: &mut String, product: &ProductRow) -> Result<(), AllocError>
    ensures { OnOk result (string_bytes out.new ≡ string_bytes out.old ++ product_line product.now) }
{
    let (part, kind) = (product.part, product.kind);
    writeln!(out, "product {part} kind {kind}")
}
