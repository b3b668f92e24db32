// Moves to the front of a list.
ghost use Rattle.std.specs.Prelude.{◌≡◌, ◌<◌, ℕ, length, slice_index};
ghost use Rattle.bzip2_reader.specs.Codes.{to_front};

/// Lists up to this place are moved byte by byte.
const NEAR: usize = 16;

/// Moves each byte before this place one place on, and this byte to the front.
#[inline(always)]
fn move_on(order: &mut [u8], place: usize, value: u8)
    requires inside { place < length order.old }
    requires value { value ≡ slice_index order.old place }
    ensures { order.new ≡ to_front order.old place }
{
    let mut carried = value;
    for i in 0..place + 1 {
        let next = order[i];
        order[i] = carried;
        carried = next;
    }
}

/// The same for many bytes.
#[inline(always)]
fn move_block(order: &mut [u8], place: usize, value: u8)
    requires inside { place < length order.old }
    requires value { value ≡ slice_index order.old place }
    ensures { order.new ≡ to_front order.old place }
{
    order.copy_within(0..place, 1);
    order[0] = value;
}

/// Moves the byte at this place to the front, and returns it.
#[inline(always)]
pub(crate) fn to_front(order: &mut [u8], place: usize) -> u8
    requires inside { place < length order.old }
    ensures value { result ≡ slice_index order.old place }
    ensures order { order.new ≡ to_front order.old place }
{
    let value = order[place];
    if place < NEAR {
        move_on(order, place, value);
    } else {
        move_block(order, place, value);
    }
    value
}
