//! The arguments of the program.
ghost use Rattle.std.specs.Prelude.{◌≡◌, map, string_bytes};
ghost use Rattle.lru_tool_inside.specs.Settings.{settings_of};

use lru_lines::numbers::{number, number_or_dash};

/// The limits of the core, and the seed of its draws.
#[derive(Clone, Copy)]
pub struct CoreSettings {
    pub limit: u64,
    pub watermark: Option<u64>,
    pub seed: u64,
}

/// What the arguments say, if they are a limit, a watermark or `-`, and a seed.
pub fn settings_from(arguments: &[String]) -> Option<CoreSettings>
    ensures { result ≡ settings_of (map string_bytes arguments.now) }
{
    match arguments {
        [limit, mark, seed] => {
            let limit = number(limit.as_bytes())?;
            let watermark = number_or_dash(mark.as_bytes())?;
            let seed = number(seed.as_bytes())?;
            Some(CoreSettings {
                limit,
                watermark,
                seed,
            })
        }
        _ => None,
    }
}
