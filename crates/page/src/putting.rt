// Zeros and texts put into the bytes of a page.
ghost use Rattle.std.specs.Prelude.{◌≡◌, if◌then◌else◌};
ghost use Rattle.page.specs.Filled.{overlaid};
ghost use Rattle.page.specs.Wiped.{limit, wiped};
ghost use Rattle.page.specs.Writing.{has_room, told};

use crate::full::PageFull;

// A page uses no more bytes.
const MOST: usize = 65536;

// How many bytes are in use.
pub(crate) fn limit(bytes: &[u8]) -> usize
    ensures { result ≡ limit bytes.now }
{
    bytes.len().min(MOST)
}

// Puts zeros from a place on, as far as the page goes.
pub(crate) fn wipe(bytes: &mut [u8], from: usize)
    ensures { bytes.new ≡ wiped bytes.old from }
{
    let end = limit(bytes);
    bytes[from.min(end)..end].fill(0);
}

// Puts a text at a place, if it fits there.
pub(crate) fn put(bytes: &mut [u8], at: usize, text: &[u8]) -> Result<(), PageFull>
    ensures answer { result ≡ told bytes.old at text.now }
    ensures bytes { bytes.new ≡ (if has_room bytes.old at text.now then overlaid bytes.old at text.now else bytes.old) }
{
    let most = limit(bytes);
    let end = at
        .checked_add(text.len())
        .filter(|end| *end <= most)
        .ok_or(PageFull::Full)?;
    bytes[at..end].copy_from_slice(text);
    Ok(())
}
