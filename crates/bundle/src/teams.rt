// The REGIONs in the order of their teams, the search of a team's slot in them, and the size of a team.
ghost use Rattle.std.specs.Prelude.{◌≡◌, ◌+◌, ◌*◌, ◌≤◌, length};
ghost use Rattle.sorting.specs.Searching.{first_with_key};
ghost use Rattle.bundle.specs.Check.{size_of};
ghost use Rattle.bundle.specs.Index.{table, fork_row_at, fork_rows_in};
ghost use Rattle.bundle.specs.Shape.{slot_of, ByTeam};

use crate::index::Forks;
use sorting::search::first_with_key;
use sorting::sort::sort;

// The slot of a team: the index of the REGION that forks it, the number of REGIONs where none does. Stays an index in either case: the root's
// tables are at that slot.
pub fn slot_of(order: &[u64], team: u16) -> u32
    requires { length order.now ≤ 512 }
    ensures { result ≡ first_with_key order.now team }
{
    first_with_key(order, team as u64) as u32
}

// "The root is team 0, size 1"; a team that is never forked has no members.
pub fn size_of(forks: Forks<'_>, slot: u32, team: u16) -> u8
    requires { slot ≡ slot_of (fork_rows_in forks) team }
    ensures { result ≡ size_of (fork_rows_in forks.entry) team }
{
    if team == 0 {
        return 1;
    }
    if forks.count <= slot {
        return 0;
    }
    forks.at(slot).size
}

// Writes the team of each REGION with its index, as first_with_key reads them. `length order ≤ 512` stays a `requires`, here and below: the words are a slice
// that is filled and sorted before it says anything.
fn number_teams(forks: &[u64], order: &mut [u64])
    requires { length order.old ≤ 512 }
    ensures { order.new ≡ table (λ i. (fork_row_at forks.now i).team * 65536 + i) (length order.old) }
{
    let forks = Forks {
        words: forks,
        count: order.len() as u32,
    };
    for i in 0..order.len() {
        order[i] = (forks.at(i as u32).team as u64) * 65536 + i as u64;
    }
}

// The words in which a team's slot is found, one for each REGION.
pub fn order_teams(forks: &[u64], order: &mut [u64])
    requires { length order.old ≤ 512 }
    ensures { ByTeam order.new (table (fork_row_at forks.now) (length order.old)) }
{
    let mut spare = [0u64; 256];
    number_teams(forks, order);
    sort(order, &mut spare);
}
