// Reading a point.
ghost use Rattle.std.specs.Prelude.{◌≡◌};
ghost use Rattle.std.specs.Option.{ok_or};
ghost use Rattle.lines.specs.Point.{point_of};
ghost use Rattle.lines.specs.declared.fault.LineFault.TheVariants.{Point};

use crate::fault::LineFault;
use words::read_number;

// The point that a field writes, a number from 0 to 255 without a leading zero.
pub fn read_point(field: &[u8]) -> Result<u8, LineFault>
    ensures { result ≡ ok_or (point_of field.now) Point }
{
    read_number(field)
        .and_then(|n| u8::try_from(n).ok())
        .ok_or(LineFault::Point)
}
