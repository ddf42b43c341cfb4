// The reading of one channel.
ghost use Rattle.leaf.specs.Readings.{read};
ghost use Rattle.std.specs.Prelude.{◌≡◌, Ok};

use gauge::fault::GaugeFault;
use gauge::path::Path;

// The reading of the channel, or the fault of a row that is too short for it.
pub(crate) fn reading(row: &[u16], channel: u16) -> Result<u16, GaugeFault>
    ensures { result ≡ read row.now channel Ok }
{
    row.get(channel as usize)
        .copied()
        .ok_or(GaugeFault::Missing {
            channel,
            path: Path::start(),
        })
}
