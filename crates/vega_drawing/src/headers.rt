// The headers of copies of faceted groups.
ghost use Rattle.std.specs.Prelude.{◌≡◌, ◌++◌, [], IfOk, OnOk, zip, option_copied};
ghost use Rattle.std.specs.Option.{option_to_list};
ghost use Rattle.std.specs.List.{filter_map};
ghost use Rattle.vega_spec.specs.declared.spec.VgMark.{out-VgMark};
ghost use Rattle.vega_copies.specs.inner.Outlined.{group_object};
ghost use Rattle.vega_drawing.specs.Grids.{draws_at, header_for, is_row};
ghost use Rattle.vega_drawing.specs.inner.Placed.{header_places_of, headers_with};

use crate::plots::headers_copied;
use cell_value::Cell;
use plot_scenes::Header;
use std::alloc::Global;
use text_kit::{OutOfMemory, Seq, Text};
use vega_copies::facet_in;
use vega_spec::{Facet, VgMark};

/// The headers of a copy of a group with these cells: those that its facet draws, that of the row before that of the column, and then those
/// round it.
pub(crate) fn headers_of(
    alloc: Global,
    mark: &VgMark,
    own: &Option<Seq<(Text, Cell)>>,
    outer: &[Header],
) -> Result<Seq<Header>, OutOfMemory>
    ensures { IfOk result (λ headers. headers ≡ headers_with (group_object 0 (out-VgMark mark.now)) own.now ++ outer.now) }
{
    let mut headers = Seq::new(alloc);
    let cells: &[(Text, Cell)] = match own {
        Some(cells) => cells.as_slice(),
        None => &[],
    };
    let places = header_places(facet_in(mark));
    push_headers_at(alloc, vega_spec::Header::Row, places, cells, &mut headers)?;
    push_headers_at(
        alloc,
        vega_spec::Header::Column,
        places,
        cells,
        &mut headers,
    )?;
    headers.append(headers_copied(alloc, outer)?)?;
    Ok(headers)
}

// The places of the headers of a facet, by its fields.
fn header_places(facet: Option<&Facet>) -> &[Option<vega_spec::Header>]
    ensures { result.now ≡ header_places_of (option_copied facet.entry) }
{
    match facet {
        Some(facet) => match &facet.headers {
            Some(headers) => headers.as_slice(),
            None => &[],
        },
        None => &[],
    }
}

// Adds the headers that a facet draws at a place for the cells of a copy.
fn push_headers_at(
    alloc: Global,
    place: vega_spec::Header,
    places: &[Option<vega_spec::Header>],
    cells: &[(Text, Cell)],
    out: &mut Seq<Header>,
) -> Result<(), OutOfMemory>
    ensures { OnOk result (out.new ≡ out.old ++ filter_map (header_for place) (zip places.now cells.now)) }
{
    for (drawn, entry) in places.iter().zip(cells) {
        push_header(alloc, place, drawn, &entry.1, out)?;
    }
    Ok(())
}

// Adds the header that a facet draws at a place for one of its fields, if it draws one there.
fn push_header(
    alloc: Global,
    place: vega_spec::Header,
    drawn: &Option<vega_spec::Header>,
    cell: &Cell,
    out: &mut Seq<Header>,
) -> Result<(), OutOfMemory>
    ensures { OnOk result (out.new ≡ out.old ++ option_to_list (header_for place (drawn.now, ([], cell.now)))) }
{
    if !draws_at(place, drawn) {
        return Ok(());
    }
    out.push(Header {
        is_beside: is_row(place),
        text: cell.display(alloc)?,
    })
}

// Whether a facet draws a header at a place for one of its fields.
fn draws_at(place: vega_spec::Header, drawn: &Option<vega_spec::Header>) -> bool
    ensures { result ≡ draws_at place drawn.now }
{
    match drawn {
        Some(drawn) => *drawn == place,
        None => false,
    }
}

// Whether headers of a place stand beside their plots.
fn is_row(place: vega_spec::Header) -> bool
    ensures { result ≡ is_row place }
{
    match place {
        vega_spec::Header::Row => true,
        vega_spec::Header::Column => false,
    }
}
