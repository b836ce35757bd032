//! The links of a list: who is ahead of a key, and who is behind it. Behind nobody comes the first of the list, and ahead of
//! nobody the last. `row` is the row of the list. Its caller has taken it from the `ListTable`, and writes it back there.
//! `yard.rt` calls them.
ghost use Rattle.std.specs.Prelude.{◌≡◌, length};
ghost use Rattle.street_yard.specs.Prelude.{row_behind, row_ahead};
ghost use Rattle.street_yard.specs.Inside.{hots_behind, hots_ahead, next_behind_of, IsBelow};

use crate::hot::Neighbour;
use crate::list_table::ListRow;
use crate::tables::Hots;

/// Writes `to` as the key behind `at`, or as the first of `row`, the row of their list, where `at` is nobody. The link back
/// from `to` is `set_ahead`'s; the count is the caller's.
pub(crate) fn set_behind(hots: &mut Hots, row: &mut ListRow, at: Neighbour, to: Neighbour)
    requires { IsBelow (length hots.old) at }
    ensures hots { hots.new ≡ hots_behind hots.old at to }
    ensures row { row.new ≡ row_behind row.old at to }
{
    match at.key() {
        Some(key) => hots.set_behind(key, to),
        None => row.front = to,
    }
}

/// Writes `to` as the key ahead of `at`, or as the last of `row`, the row of their list, where `at` is nobody. The link back
/// from `to` is `set_behind`'s; the count is the caller's.
pub(crate) fn set_ahead(hots: &mut Hots, row: &mut ListRow, at: Neighbour, to: Neighbour)
    requires { IsBelow (length hots.old) at }
    ensures hots { hots.new ≡ hots_ahead hots.old at to }
    ensures row { row.new ≡ row_ahead row.old at to }
{
    match at.key() {
        Some(key) => hots.set_ahead(key, to),
        None => row.back = to,
    }
}

/// Who is behind `at`, or the first on the list where `at` is nobody; nobody at the end of the list.
pub(crate) fn next_behind(hots: &Hots, row: &ListRow, at: Neighbour) -> Neighbour
    requires { IsBelow (length hots.now) at }
    ensures { result ≡ next_behind_of hots.now row.now at }
{
    match at.key() {
        Some(key) => hots.behind(key),
        None => row.front,
    }
}
