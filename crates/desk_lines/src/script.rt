//! A line of a script.

use rights_lattice::{Event, SiteId};
use world_steps::Step;

/// What a line of a script asks: a step of the world, or a look at a site's view.
#[derive(Clone, Copy, PartialEq, Eq, Debug)]
pub enum ScriptLine {
    /// A step that may change the world.
    Make(Step),
    /// The seats that the site may still sell.
    Left { site: SiteId, event: Event },
    /// The totals by the site's view.
    Totals { site: SiteId, event: Event },
}
