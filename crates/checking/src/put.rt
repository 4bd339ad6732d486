// Copying to the start of a buffer.

ghost use Rattle.std.specs.Prelude.{◌≤◌, length};
ghost use Rattle.bits.specs.Lists.{Put};

// Copies the items to the buffer's start, and tells how many they are. Each crate has its own: one for all would be open and ask for room, and with a test of the room emission with many controls takes half again as long.
pub(crate) fn put<T: Copy>(out: &mut [T], items: &[T]) -> usize
    requires { length items.now ≤ length out.old }
    ensures { Put result out.new items.now out.old }
{
    // With copy_from_slice, which compares the two places, an array of four items goes through memory: emission then takes twice as long.
    let size = items.len();
    for i in 0..size {
        out[i] = items[i];
    }
    size
}
