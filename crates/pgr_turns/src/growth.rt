ghost use Rattle.std.specs.Prelude.{◌≡◌, ◌++◌, ◌∷◌, [], IfOk};

use pgr_outside::NoMemory;

/// Puts one more item at the end of a list.
///
/// `NoMemory` comes where the list has no place for it and none is to be had.
pub(crate) fn push<T: Drop>(list: &mut Vec<T>, item: T) -> Result<(), NoMemory>
    ensures { IfOk result (λ _. list.new.items ≡ list.old.items ++ item ∷ []) }
{
    list.push(item).map_err(|_| NoMemory)
}
