ghost use Rattle.std.specs.Prelude.{◌≡◌, []};
ghost use Rattle.hx_clock.specs.Views.{Knows};

use hx_clock::Pass;
use hx_types::{Post, PostId};

/// A post on its way, with its name and a pass that knows it.
#[derive(Drop)]
pub struct Envelope {
    pub id: PostId,
    pub post: Post,
    pub pass: Pass,
    pub ghost known: { Knows pass.view id post },
    pub ghost bare: { pass.view.carried ≡ [] },
}

/// An envelope as it lies in a box: with the name of the port under which it was put.
#[derive(Drop)]
pub struct Letter {
    pub port: u32,
    pub envelope: Envelope,
}
