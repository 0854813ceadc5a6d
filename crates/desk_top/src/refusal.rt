ghost use Rattle.std.specs.Prelude.{◌≡◌, IfOk, Some, string_bytes};
ghost use Rattle.desk_top.specs.Answer.{refusal_line, refusal_text};

use desk_declare::DeclareFault;
use desk_model::RuleFault;
use desk_text::OutOfMemory;
use std::alloc::Global;
use std::fmt;

/// Why an input was refused: the first of these causes, in this order.
#[derive(Debug, Drop)]
pub enum Refusal {
    /// More bytes came than a declaration may have.
    InputTooLong,
    /// The bytes are no declaration.
    BadDeclaration(DeclareFault),
    /// The tables that a desk starts with refuse the declaration by this rule.
    Rule(RuleFault),
}

/// The refusal's words.
impl fmt::Display for Refusal {
    ghost output = { λ refusal. Some (refusal_text refusal) };

    fn fmt<W: fmt::Write>(&self, f: &mut fmt::Formatter<W>) -> fmt::Result {
        match self {
            Refusal::InputTooLong => f.write_str("refused input-too-long"),
            Refusal::BadDeclaration(fault) => write!(f, "bad-declaration {fault}"),
            Refusal::Rule(fault) => write!(f, "refused {fault}"),
        }
    }
}

impl Refusal {
    /// The line that tells the refusal.
    pub fn line(&self, alloc: Global) -> Result<String, OutOfMemory>
        ensures { IfOk result (λ line. string_bytes line ≡ refusal_line self.now) }
    {
        let line = format!(in alloc; "{self}\n")?;
        Ok(line)
    }
}
