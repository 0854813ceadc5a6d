ghost use Rattle.std.specs.Prelude.{◌≡◌, ◌++◌, [], ◌∷◌, OnOk, if◌then◌else◌};

use desk_text::OutOfMemory;

/// Appends the item where the test passes.
pub(crate) fn push_if<T: Copy>(list: &mut Vec<T>, test: bool, item: T) -> Result<(), OutOfMemory>
    ensures { OnOk result (list.new.items ≡ list.old.items ++ (if test then item ∷ [] else [])) }
{
    if test {
        list.push(item)?;
    }
    Ok(())
}
