//! Values that are raised by others: of two the greater stays.

ghost use Rattle.std.specs.Prelude.{◌≡◌, ℕ, ◌-◌, ◌≤◌, ◌<◌, length, max, nat_le, slice_index, if◌then◌else◌};

/// Takes the greater of the values from a place on and of others, as far as there are values.
pub(crate) fn raise(values: &mut Vec<u8>, from: usize, others: &[u8])
    requires { from ≤ length values.old.items }
    ensures len { length values.new.items ≡ length values.old.items }
    ensures greater { (q : ℕ) → q < length values.old.items → slice_index values.new.items q ≡
        max (slice_index values.old.items q) (if nat_le from q then slice_index others.now (q - from) else 0) }
{
    let count = others.len().min(values.len() - from);
    for k in 0..count {
        values[from + k] = values[from + k].max(others[k]);
    }
}

/// Takes the greater of values and of others, of which there may be more.
pub(crate) fn raise_all(values: &mut Vec<u8>, others: Vec<u8>)
    ensures { (q : ℕ) → slice_index values.new.items q ≡
        max (slice_index values.old.items q) (slice_index others.items q) }
{
    if values.len() < others.len() {
        let mut longer = others;
        raise(&mut longer, 0, values);
        *values = longer;
    } else {
        raise(values, 0, &others);
    }
}
