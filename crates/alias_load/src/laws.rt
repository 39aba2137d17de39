// What the images rest on.
ghost use Rattle.std.specs.Prelude.{◌≡◌, ℕ, List, ◌++◌, Ok, Err};
ghost use Rattle.std.specs.List.{concat};
ghost use Rattle.part_plan.specs.Plan.{run, Follows, FailsAt};
ghost use Rattle.alias_load.specs.declared.fault.AliasFault.{AliasFault};
ghost use Rattle.alias_load.specs.Models.{Alias, spell};
ghost use Rattle.alias_load.specs.Reading.{alias};

/// A file is read as an alias model exactly where it begins with the model's spelling and each part passes its tests;
/// what stands behind them is left. A fault is that of the first part that fails, by its first test that fails.
pub fn spelled()
    ensures found { (bytes rest : List ℕ) (model : Alias) → run alias bytes ≡ Ok (model, rest)
        → (parts : List (List ℕ)) × Follows alias parts model × (bytes ≡ spell model ++ rest) }
    ensures only { (parts : List (List ℕ)) (rest : List ℕ) (model : Alias) → Follows alias parts model
        → run alias (spell model ++ rest) ≡ Ok (model, rest) }
    ensures fault { (bytes : List ℕ) (fault : AliasFault) → run alias bytes ≡ Err fault
        → (parts : List (List ℕ)) × (rest : List ℕ) × (bytes ≡ concat parts ++ rest) × FailsAt alias parts rest fault }
    ensures first { (parts : List (List ℕ)) (rest : List ℕ) (fault : AliasFault) → FailsAt alias parts rest fault
        → run alias (concat parts ++ rest) ≡ Err fault }
{}
