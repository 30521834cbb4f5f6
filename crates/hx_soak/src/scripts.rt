//! The script of a seed.

ghost use Rattle.std.specs.Prelude.{◌≡◌, ◌≤◌, ◌++◌, ◌∷◌, [], IfOk, OnOk};
ghost use Rattle.hx_types.specs.declared.spaces.Kind.TheVariants as a_kind;
ghost use Rattle.hx_types.specs.declared.limits.TheConstants.{MOST_CALLS};
ghost use Rattle.hx_types.specs.Fitting.{IsScript};
ghost use Rattle.hx_soak.specs.Owning.{KeysAreOwned};
ghost use Rattle.hx_soak.specs.Soaking.{attributes_of_soak, calls_drawn, script_drawn, soak};

use crate::calls::call_drawn;
use crate::drawing::SplitMix64;
use hx_types::{
    Attribute, Attributes, Axes, Axis, Calls, Kind, Memory, Script, Sessions, Space, Steps,
    Subspaces, Text,
};
use std::alloc::Global;

/// The script of a seed: so many calls, dealt out in turn to four sessions, on a space of its own,
/// and no steps.
///
/// It can be run as it is: its calls fit its space. Each key is called by one session alone. At
/// most 16,384 calls are drawn, as many as a script has. It fails for want of memory alone.
pub fn script_of(alloc: Global, seed: u64, calls: u32) -> Result<Script, Memory>
    requires { calls ≤ MOST_CALLS }
    ensures exact { IfOk result (λ script. script ≡ script_drawn seed calls) }
    ensures valid { IfOk result IsScript }
    ensures owned { IfOk result KeysAreOwned }
{
    let sessions = sessions_drawn(alloc, seed, calls)?;
    Ok(Script {
        space: soak(alloc)?,
        sessions,
        steps: Steps::new(alloc),
    })
}

/// The calls of the four sessions.
fn sessions_drawn(alloc: Global, seed: u64, calls: u32) -> Result<Sessions, Memory>
    ensures { IfOk result (λ made. made ≡ (script_drawn seed calls).sessions) }
{
    let mut sessions = Sessions::new(alloc);
    deal(alloc, &mut sessions, seed, calls, 1)?;
    deal(alloc, &mut sessions, seed, calls, 2)?;
    deal(alloc, &mut sessions, seed, calls, 3)?;
    deal(alloc, &mut sessions, seed, calls, 4)?;
    Ok(sessions)
}

/// Adds the calls of a session.
fn deal(
    alloc: Global,
    sessions: &mut Sessions,
    seed: u64,
    calls: u32,
    session: u32,
) -> Result<(), Memory>
    ensures { OnOk result (sessions.new ≡ sessions.old ++ calls_drawn seed calls session ∷ []) }
{
    let made = calls_drawn(alloc, seed, calls, session)?;
    sessions.push(made)
}

/// The calls of a session: of all that are drawn, those of its turns.
fn calls_drawn(alloc: Global, seed: u64, calls: u32, session: u32) -> Result<Calls, Memory>
    ensures { IfOk result (λ made. made ≡ calls_drawn seed calls session) }
{
    let mut generator = SplitMix64::new(seed);
    let mut made = Calls::new(alloc);
    for turn in 0..calls {
        let draw = generator.draw();
        if turn % 4 + 1 == session {
            made.push(call_drawn(alloc, session, draw)?)?;
        }
    }
    Ok(made)
}

/// The space: objects with a color and a size, spread by each of them, on four servers.
fn soak(alloc: Global) -> Result<Space, Memory>
    ensures { IfOk result (λ space. space ≡ soak) }
{
    let name = Text::from_str(alloc, "soak")?;
    let key_name = Text::from_str(alloc, "k")?;
    let attributes = attributes(alloc)?;
    let subspaces = subspaces(alloc)?;
    Ok(Space {
        name,
        key_name,
        key_parts: 4,
        attributes,
        subspaces,
        servers: 4,
        tolerate: 1,
    })
}

fn attributes(alloc: Global) -> Result<Attributes, Memory>
    ensures { IfOk result (λ made. made ≡ attributes_of_soak) }
{
    let mut made = Attributes::new(alloc);
    push_attribute(alloc, &mut made, "color", Kind::Text)?;
    push_attribute(alloc, &mut made, "size", Kind::Int { lo: 0, hi: 999 })?;
    Ok(made)
}

/// Adds an attribute.
fn push_attribute(
    alloc: Global,
    attributes: &mut Attributes,
    name: &str,
    kind: Kind,
) -> Result<(), Memory>
    ensures { OnOk result (attributes.new ≡ attributes.old ++ record { name = name.now; kind = kind } ∷ []) }
{
    let name = Text::from_str(alloc, name)?;
    attributes.push(Attribute { name, kind })
}

/// A subspace of the color, and one of the size.
fn subspaces(alloc: Global) -> Result<Subspaces, Memory>
    ensures { IfOk result (λ made. made ≡ (record { attribute = 1; parts = 4 } ∷ []) ∷ (record { attribute = 2; parts = 4 } ∷ []) ∷ []) }
{
    let mut made = Subspaces::new(alloc);
    push_axis(alloc, &mut made, 1)?;
    push_axis(alloc, &mut made, 2)?;
    Ok(made)
}

/// Adds a subspace of one axis, of four parts.
fn push_axis(alloc: Global, subspaces: &mut Subspaces, attribute: u32) -> Result<(), Memory>
    ensures { OnOk result (subspaces.new ≡ subspaces.old ++ (record { attribute = attribute; parts = 4 } ∷ []) ∷ []) }
{
    let mut axes = Axes::new(alloc);
    axes.push(Axis {
        attribute,
        parts: 4,
    })?;
    subspaces.push(axes)
}
