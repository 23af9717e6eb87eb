// Laws of the lists in the panels of a compiled facet.
ghost use Rattle.compiled_rows.specs.Follows.{FollowersAreCovered, TransformsAddNone, TransformsFollow};
ghost use Rattle.compiled_rows.specs.Begun.{RowsLeftReadIds, StepsCover, StepsReadIds};
ghost use Rattle.compiled_rows.specs.Nested.{PanelsStayCovered};
ghost use Rattle.compiled_rows.specs.Stands.{ListsOfBegunAreCovered, ListsThatAddNoneAreCovered, MadeListsAreCovered, StandsWhereAllStand};
ghost use Rattle.compiled_rows.specs.Leaves.{DragListsLeave, FieldsAreMentioned, FieldsAreTold, KeyListsLeave, MentionedAreOutside, ScaleListsAddNone};
ghost use Rattle.compiled_rows.specs.Leaves.{ScaleListsLeave};
ghost use Rattle.compiled_rows.specs.Panels.{CopiesArePanels, FieldsInOwnOrders, PanelsInOwnOrders};
ghost use Rattle.compiled_rows.specs.Parts.{CopiesAreChoices, CoveredHaveCells, DirectedCellsAreThese, FirstCellsAreThese, InnerListsAreParted};
ghost use Rattle.compiled_rows.specs.Parts.{ListsAreParted, PartsAreCovered, ScaleListsAreParted, UnitsAreParted};

/// In a copy the name of a list stands for the rows with its cells.
pub fn lists_are_parted()
    ensures { ListsAreParted }
{}

/// So the rows of units are those of panels.
pub fn units_are_parted()
    ensures { UnitsAreParted }
{}

/// So are the lists to which the domain of a scale refers that stands in a panel.
pub fn scale_lists_are_parted()
    ensures { ScaleListsAreParted }
{}

/// Whatever a facet inside another one parts, the outer one has parted.
pub fn inner_lists_are_parted()
    ensures { InnerListsAreParted }
{}

/// The copies of a facet have every choice of a cell of each of its fields.
pub fn copies_are_choices()
    ensures { CopiesAreChoices }
{}

/// The cells of a field are, as they first appear, those of the panels.
pub fn first_cells_are_these()
    ensures { FirstCellsAreThese }
{}

/// So they are in either direction.
pub fn directed_cells_are_these()
    ensures { DirectedCellsAreThese }
{}

/// A list that has only cells of units has in a panel only cells of units there.
pub fn parts_are_covered()
    ensures { PartsAreCovered }
{}

/// Behind the rows of units it adds no cell.
pub fn covered_have_cells()
    ensures { CoveredHaveCells }
{}

/// The cells of the fields of a facet without keys are those of the panels.
pub fn fields_in_own_orders()
    ensures { FieldsInOwnOrders }
{}

/// An object with a facet has a copy for each choice of such cells.
pub fn copies_are_panels()
    ensures { CopiesArePanels }
{}

/// So a facet without keys has the panels of the direct meaning.
pub fn panels_in_own_orders()
    ensures { PanelsInOwnOrders }
{}

/// Transforms that put cells under names of their own leave those of all other fields.
pub fn transforms_follow()
    ensures { TransformsFollow }
{}

/// What they make has no other cells there.
pub fn followers_are_covered()
    ensures { FollowersAreCovered }
{}

/// Columns that are made are none of the fields that a specification mentions.
pub fn mentioned_are_outside()
    ensures { MentionedAreOutside }
{}

/// It mentions the fields of its facets.
pub fn fields_are_mentioned()
    ensures { FieldsAreMentioned }
{}

/// The lists of scales that a facet parts put cells under names of their own, but for the rows by which cells stand.
pub fn scale_lists_leave()
    ensures { ScaleListsLeave }
{}

/// So do those of keys.
pub fn key_lists_leave()
    ensures { KeyListsLeave }
{}

/// So do those of drags.
pub fn drag_lists_leave()
    ensures { DragListsLeave }
{}

/// Transforms that add no cell in some fields make rows that have no other cells there.
pub fn transforms_add_none()
    ensures { TransformsAddNone }
{}

/// All lists of scales that a facet parts add none.
pub fn scale_lists_add_none()
    ensures { ScaleListsAddNone }
{}

/// The rows by which cells stand are told apart by the fields of the facets round them.
pub fn fields_are_told()
    ensures { FieldsAreTold }
{}

/// A data set makes the same where all names stand as where it is read.
pub fn stands_where_all_stand()
    ensures { StandsWhereAllStand }
{}

/// One that puts cells under names of its own has no other cells than the list with whose rows it begins.
pub fn made_lists_are_covered()
    ensures { MadeListsAreCovered }
{}

/// One that adds no cell has none but those of the list with whose rows it begins.
pub fn lists_that_add_none_are_covered()
    ensures { ListsThatAddNoneAreCovered }
{}

/// One of rows before an aggregate has no cells, in the fields by which it groups, that those behind it lack.
pub fn lists_of_begun_are_covered()
    ensures { ListsOfBegunAreCovered }
{}

/// The lists of a facet inside another one have in its panels no cells but those of units.
pub fn panels_stay_covered()
    ensures { PanelsStayCovered }
{}

/// Rows before an aggregate have no cells, in the fields by which it groups, that those behind it lack.
pub fn steps_cover()
    ensures { StepsCover }
{}

/// Rows that steps leave read their ids.
pub fn steps_read_ids()
    ensures { StepsReadIds }
{}

/// So do those that steps leave of a source of a state.
pub fn rows_left_read_ids()
    ensures { RowsLeftReadIds }
{}
