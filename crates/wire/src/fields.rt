// Numbers as bytes, the lowest byte first, at places of bytes.
ghost use Rattle.std.specs.Prelude.{◌≡◌, ℕ, ◌+◌, ◌%◌, ◌<◌, ◌∷◌, slice_index, slice_set};
ghost use Rattle.wire.specs.Numbers.{number_bytes};
ghost use Rattle.wire.specs.Fields.{field_at, word_at, fields_bytes, written, room};

// Puts an item at a place, if it is there.
pub fn put<T: Copy>(items: &mut [T], at: usize, item: T)
    ensures { items.new ≡ slice_set items.old at item }
{
    if at < items.len() {
        items[at] = item;
    }
}

// The N bytes from a place on; those that are not there are 0.
fn bytes_at<const N: usize>(bytes: &[u8], at: usize) -> [u8; N]
    ensures { (i : ℕ) → i < N → slice_index result i ≡ slice_index bytes.now (at + i) }
{
    let rest = &bytes[at.min(bytes.len())..];
    let count = rest.len().min(N);
    let mut found = [0; N];
    found[..count].copy_from_slice(&rest[..count]);
    found
}

// The number in the four bytes from a place on; bytes that are not there count as 0.
pub fn field_at(bytes: &[u8], at: usize) -> u32
    ensures { result ≡ field_at bytes.now at }
{
    u32::from_le_bytes(bytes_at(bytes, at))
}

// The number in the two bytes from a place on; bytes that are not there count as 0.
pub fn two_bytes(bytes: &[u8], at: usize) -> u16
    ensures value { result ≡ word_at bytes.now at }
    ensures lowest { result ≡ field_at bytes.now at % 65536 }
{
    u16::from_le_bytes(bytes_at(bytes, at))
}

// Writes bytes over those from a place on, if there is room for them; else nothing changes.
pub fn put_bytes(bytes: &mut [u8], at: usize, new: &[u8])
    ensures { bytes.new ≡ written at new.now bytes.old }
{
    if at <= bytes.len() && new.len() <= bytes.len() - at {
        bytes[at..at + new.len()].copy_from_slice(new);
    }
}

// Writes the four lowest bytes of n from a place on, if there is room for them; else nothing changes.
pub fn put_field(bytes: &mut [u8], at: usize, n: usize)
    ensures { bytes.new ≡ written at (number_bytes 4 n) bytes.old }
{
    let [a, b, c, d, ..] = n.to_le_bytes();
    put_bytes(bytes, at, &[a, b, c, d]);
}

// Writes numbers one after the other, four bytes each, from a place on, if there is room for all of them; else nothing changes.
pub fn put_fields(bytes: &mut [u8], at: usize, numbers: &[u32])
    ensures { bytes.new ≡ written at (fields_bytes numbers.now) bytes.old }
{
    if bytes.len().saturating_sub(at) / 4 < numbers.len() {
        return;
    }
    for (i, n) in numbers.iter().enumerate() {
        put_bytes(bytes, at + 4 * i, &n.to_le_bytes());
    }
}

// Writes a kind's byte and fields at the front, and says how many bytes they are; where they have no room nothing changes.
pub fn write_kind_and_fields(out: &mut [u8], kind: u8, fields: &[u32]) -> Option<usize>
    ensures size { result ≡ room 0 (kind ∷ fields_bytes fields.now) out.old }
    ensures bytes { out.new ≡ written 0 (kind ∷ fields_bytes fields.now) out.old }
{
    let size = 1 + 4 * fields.len();
    if out.len() < size {
        return None;
    }
    out[0] = kind;
    put_fields(out, 1, fields);
    Some(size)
}
