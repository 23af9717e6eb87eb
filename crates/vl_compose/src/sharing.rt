// The view up to which a unit shares a scale.
ghost use Rattle.std.specs.Prelude.{◌≡◌};
ghost use Rattle.std.specs.Option.{option_map_or};
ghost use Rattle.vl_compose.specs.Shown.{kind_of, round_shown, view_shown};
ghost use Rattle.vl_compose.specs.Sharing.{sharing_said, is_independent, separates_by, separates, home_of};
ghost use Rattle.vl_compose.specs.inner.Said.{said_among};

use crate::here::ViewHere;
use crate::rounds::number_at;
use vl_normalize::{X, Y};
use vl_spec::{Resolve, Sharing, SharingOf, ViewKind};

// What is said of a channel among entries.
fn said_among(entries: &[SharingOf], code: u16) -> Option<Sharing>
    ensures { result ≡ said_among entries.now code }
{
    for entry in entries {
        if entry.channel == code {
            return Some(entry.sharing);
        }
    }
    None
}

// What a view says of a channel.
fn sharing_said(resolve: &Option<Resolve>, code: u16) -> Option<Sharing>
    ensures { result ≡ sharing_said resolve.now code }
{
    match resolve {
        Some(
            Resolve {
                scale: Some(entries),
            },
        ) => said_among(entries.as_slice(), code),
        _ => None,
    }
}

// Whether views are to have scales of their own, by what is said, or else by this.
fn is_independent(said: Option<Sharing>, unsaid: bool) -> bool
    ensures { result ≡ option_map_or is_independent said unsaid }
{
    match said {
        Some(Sharing::Independent) => true,
        Some(Sharing::Shared) => false,
        None => unsaid,
    }
}

// Whether the views in a view have each a scale of their own for a channel, by what is said of it.
fn separates_by(kind: &ViewKind, code: u16, said: Option<Sharing>) -> bool
    ensures { result ≡ separates_by (kind_of kind.now) code said }
{
    match kind {
        ViewKind::Unit(_) => false,
        ViewKind::Layer(_) | ViewKind::Facet(_) => is_independent(said, false),
        ViewKind::Joined(_) => is_independent(said, code == X || code == Y),
    }
}

// Whether the views in a view have each a scale of their own for a channel.
fn separates(code: u16, here: &ViewHere) -> bool
    ensures { result ≡ separates code (view_shown here.now) }
{
    separates_by(
        &here.view.kind,
        code,
        sharing_said(&here.view.resolve, code),
    )
}

/// The number of the view up to which a unit with these views round it shares the scale of the channel of a code: the outermost within the
/// innermost that gives each of its views a scale of its own.
pub fn home_of(round: &[ViewHere], code: u16) -> usize
    ensures { result ≡ home_of (round_shown round.now) code }
{
    let mut place = round.len();
    while place > 0 {
        if separates(code, &round[place - 1]) {
            return number_at(round, place);
        }
        place -= 1;
    }
    number_at(round, place)
}
