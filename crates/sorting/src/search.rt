// The search by halves, and the search for a key.
ghost use Rattle.std.specs.Prelude.{◌≡◌};
ghost use Rattle.sorting.specs.Searching.{lower_bound, first_with_key};

// Where the words are ascending: the number of words below `word` (`lower-bound` of proofs/Halving.antt).
// Stays a loop: std's `partition_point` promises nothing of words in another order, and `lower_bound` says what this gives for any.
pub fn lower_bound(words: &[u64], word: u64) -> usize
    ensures { result ≡ lower_bound words.now word }
{
    let mut low = 0;
    let mut high = words.len();
    while low < high {
        let middle = low + (high - low) / 2;
        if words[middle] < word {
            low = middle + 1;
        } else {
            high = middle;
        }
    }
    low
}

// Where the words are `key * 65536 + index` of the rows of a table, sorted: the index of the first row with this key, or the number of rows
// where there is none (`first-with-key` of proofs/KeyOrder.antt).
// Stays an index for none: in the tables of bundle's shape the root has the place after the last REGION, and so has a team that none forks.
pub fn first_with_key(order: &[u64], key: u64) -> usize
    ensures { result ≡ first_with_key order.now key }
{
    if 281474976710656 <= key {
        return order.len();
    }
    let at = lower_bound(order, key * 65536);
    if order.len() <= at {
        return order.len();
    }
    let word = order[at];
    if word / 65536 == key {
        return (word % 65536) as usize;
    }
    order.len()
}
