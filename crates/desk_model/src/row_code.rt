ghost use Rattle.std.specs.Prelude.{◌≡◌, IfOk};
ghost use Rattle.desk_model.specs.Rows.{pair_code};

use desk_text::{Bytes, Code, OutOfMemory};
use std::alloc::Global;

/// The bytes of a code, which name the row whose key it is.
///
/// `OutOfMemory`: none was left for them.
pub fn code_bytes(alloc: Global, code: &Code) -> Result<Bytes, OutOfMemory>
    ensures { IfOk result (λ bytes. bytes ≡ code.now) }
{
    Ok(Bytes::from(code.as_bytes().to_vec(alloc)?))
}

/// Two parts of a key as one code, with a `/` between them.
///
/// `OutOfMemory`: none was left for the code.
pub fn pair_code(alloc: Global, first: &[u8], second: &[u8]) -> Result<Bytes, OutOfMemory>
    ensures { IfOk result (λ code. code ≡ pair_code first.now second.now) }
{
    let mut code = Bytes::start(alloc);
    code.push_all(first)?;
    code.push_all(b"/")?;
    code.push_all(second)?;
    Ok(code)
}
