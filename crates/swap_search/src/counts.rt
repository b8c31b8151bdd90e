// Counts of what was seen, at places.
ghost use Rattle.std.specs.Prelude.{◌≡◌, not, cond};
ghost use Rattle.swap_search.specs.Counts.{more};

// So many more at a place, where the counts have it.
pub fn add(counts: &mut [u64], i: usize, n: u64)
    ensures { counts.new ≡ more i n counts.old }
{
    if i < counts.len() {
        counts[i] = counts[i].saturating_add(n);
    }
}

// One more at a place, where it is so.
pub fn add_if(counts: &mut [u64], i: usize, so: bool)
    ensures { counts.new ≡ cond so (more i 1 counts.old) counts.old }
{
    if so {
        add(counts, i, 1);
    }
}

// One more at a place, where it is not so.
pub fn held(counts: &mut [u64], i: usize, so: bool) -> bool
    ensures answer { result ≡ so }
    ensures counted { counts.new ≡ cond so counts.old (more i 1 counts.old) }
{
    add_if(counts, i, !so);
    so
}
