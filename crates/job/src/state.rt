// A job, as it is kept.
ghost use Rattle.std.specs.Prelude.{vec_len};
ghost use Rattle.job.specs.Shape.{Shut, Unopened, Peopled, Open, Ends, Left};

use crate::hall::Hall;
use crate::table::Table;
use model::{Opening, Phase};

#[derive(Drop)]
pub struct Job {
    pub(crate) phase: Phase,
    pub(crate) hall: Hall,
    pub(crate) table: Table,
    pub(crate) opening: Opening,
    // The key drawn last.
    pub(crate) floor: u32,
    pub(crate) tried: usize,
    ghost shut: { Shut phase (vec_len table.pairs) floor tried },
    ghost unopened: { Unopened phase opening },
    ghost peopled: { Peopled phase hall.points },
    ghost opened: { Open phase hall.points (vec_len table.pairs) floor table.settled tried },
    ghost ends: { Ends phase hall.points },
    ghost left: { Left phase table.settled tried },
}
