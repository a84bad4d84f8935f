//! Laws. A function here does nothing: its clause is the law.
ghost use Rattle.std.specs.Prelude.{◌≡◌, ◌≢◌, ℕ, Err};
ghost use Rattle.cert_store.specs.ChainMap.{map_rows};
ghost use Rattle.delegation.specs.Anchors.{anchors_in};
ghost use Rattle.stir_drill.specs.World.{anchors_text, chain_map_text, table_text};
ghost use Rattle.tn_auth_list.specs.CodeTable.{table_rows};

/// None of the lines of the drill's chain map and of its code table is bad, and its trust anchors are anchors.
pub fn files_law()
    ensures chains { (bad : ℕ) → map_rows chain_map_text ≢ Err bad }
    ensures anchors { (bad : ℕ) → anchors_in anchors_text ≢ Err bad }
    ensures table { (bad : ℕ) → table_rows table_text ≢ Err bad }
{}
