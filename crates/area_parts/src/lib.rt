// Parts of lent areas, total: a part that would reach past the end stops there.
#![tactic(auto)]

ghost use Rattle.std.specs.Prelude.{◌≡◌, min, take, drop};
ghost use Rattle.area_parts.specs.Cleared.{filled};

// The first n bytes, all of them where there are fewer.
pub fn front(bytes: &[u8], n: usize) -> &[u8]
    ensures { result.now ≡ take n bytes.now }
{
    &bytes[..n.min(bytes.len())]
}

// The bytes from a place on, none where there are fewer.
pub fn tail(bytes: &[u8], from: usize) -> &[u8]
    ensures { result.now ≡ drop from bytes.now }
{
    &bytes[from.min(bytes.len())..]
}

// The first n elements become `zero`, all of them where there are fewer.
pub fn clear<T: Copy>(items: &mut [T], n: usize, zero: T)
    ensures { items.new ≡ filled zero n items.old }
{
    let most = n.min(items.len());
    for item in items[..most].iter_mut() {
        *item = zero;
    }
}
