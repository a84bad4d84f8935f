//! Laws: a function here does nothing, and its clauses are the law.
ghost use Rattle.std.specs.Prelude.{◌≡◌, ◌++◌, ◌&&◌, List};
ghost use Rattle.log_run.specs.Batch.{Batch, all_well, calls_in, texts_in};

/// Of some batches and those after them: their calls, their lines, and that nothing is wrong with them.
pub fn batch_law()
    ensures calls { (xs ys : List Batch) → calls_in (xs ++ ys) ≡ calls_in xs ++ calls_in ys }
    ensures texts { (xs ys : List Batch) → texts_in (xs ++ ys) ≡ texts_in xs ++ texts_in ys }
    ensures well { (xs ys : List Batch) → all_well (xs ++ ys) ≡ (all_well xs && all_well ys) }
{}
