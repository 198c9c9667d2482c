//! Worked rows of the protocol, computed on the specification of a host: the diaries of the tests of `test_hosts`, written by hand there.
ghost use Rattle.std.specs.Prelude.{◌≡◌, ◌∷◌, [], true, false};
ghost use Rattle.mem_rec.specs.declared.Space.TheVariants.{Daram, Saram, External};
ghost use Rattle.ialg.specs.Log.{Init, Activate, Process, Command, Deactivate, Moved};
ghost use Rattle.host_protocol.specs.Rows.{diary, birth, birth_by, block, get, rest, death, step, compact};

/// The rows. The call does nothing: its contract is the rows, the newest call first.
pub fn protocol_rows()
    ensures once { diary 0 (birth 0 0 8 ∷ block 0 ∷ block 0 ∷ get 0 ∷ []) ≡ Command ∷ Process ∷ Process ∷ Activate ∷ Init ∷ [] }
    ensures turns0 { diary 0 (birth 0 0 8 ∷ birth 1 0 8 ∷ block 0 ∷ block 1 ∷ block 1 ∷ block 0 ∷ [])
        ≡ Process ∷ Activate ∷ Deactivate ∷ Process ∷ Activate ∷ Init ∷ [] }
    ensures turns1 { diary 1 (birth 0 0 8 ∷ birth 1 0 8 ∷ block 0 ∷ block 1 ∷ block 1 ∷ block 0 ∷ []) ≡ Deactivate ∷ Process ∷ Process ∷ Activate ∷ Init ∷ [] }
    ensures apart { diary 0 (birth 0 0 8 ∷ birth 1 1 8 ∷ block 0 ∷ block 1 ∷ block 0 ∷ []) ≡ Process ∷ Process ∷ Activate ∷ Init ∷ [] }
    ensures replaced0 { diary 0 (birth 0 0 8 ∷ birth 2 1 8 ∷ block 0 ∷ birth 1 0 100 ∷ get 0 ∷ [])
        ≡ Command ∷ Activate ∷ Moved ∷ Deactivate ∷ Process ∷ Activate ∷ Init ∷ [] }
    ensures replaced1 { diary 1 (birth 0 0 8 ∷ birth 2 1 8 ∷ block 0 ∷ birth 1 0 100 ∷ get 1 ∷ []) ≡ Command ∷ Activate ∷ Init ∷ [] }
    ensures replaced2 { diary 2 (birth 0 0 8 ∷ birth 2 1 8 ∷ block 0 ∷ birth 1 0 100 ∷ get 2 ∷ []) ≡ Command ∷ Activate ∷ Init ∷ [] }
    ensures record1 { diary 1 (birth 0 0 8 ∷ birth 1 0 8 ∷ birth 2 1 8 ∷ death 0 ∷ block 1 ∷ step Saram ∷ get 1 ∷ [])
        ≡ Command ∷ Moved ∷ Process ∷ Activate ∷ Init ∷ [] }
    ensures record2 { diary 2 (birth 0 0 8 ∷ birth 1 0 8 ∷ birth 2 1 8 ∷ death 0 ∷ block 1 ∷ step Saram ∷ get 2 ∷ []) ≡ Command ∷ Activate ∷ Init ∷ [] }
    ensures block1 { diary 1 (birth 0 0 8 ∷ birth 1 1 8 ∷ birth 2 1 8 ∷ birth 3 2 8 ∷ death 0 ∷ block 1 ∷ step Daram ∷ get 1 ∷ [])
        ≡ Command ∷ Moved ∷ Process ∷ Activate ∷ Init ∷ [] }
    ensures block2 { diary 2 (birth 0 0 8 ∷ birth 1 1 8 ∷ birth 2 1 8 ∷ birth 3 2 8 ∷ death 0 ∷ block 1 ∷ step Daram ∷ get 2 ∷ [])
        ≡ Command ∷ Activate ∷ Moved ∷ Init ∷ [] }
    ensures block3 { diary 3 (birth 0 0 8 ∷ birth 1 1 8 ∷ birth 2 1 8 ∷ birth 3 2 8 ∷ death 0 ∷ block 1 ∷ step Daram ∷ get 3 ∷ [])
        ≡ Command ∷ Activate ∷ Init ∷ [] }
    ensures rested { diary 0 (birth 0 0 8 ∷ block 0 ∷ rest 0 ∷ rest 0 ∷ get 0 ∷ []) ≡ Command ∷ Activate ∷ Deactivate ∷ Process ∷ Activate ∷ Init ∷ [] }
    ensures compacted { diary 1 (birth 0 0 8 ∷ birth 1 1 8 ∷ birth 2 2 8 ∷ death 0 ∷ compact Saram ∷ compact Daram ∷ compact Daram ∷ [])
        ≡ Moved ∷ Moved ∷ Init ∷ [] }
    ensures shared0 { diary 0 (birth 5 0 0 ∷ birth_by 0 1 0 0 4 ∷ birth_by 1 2 0 0 4 ∷ birth_by 2 3 0 0 8 ∷ death 5 ∷ step External ∷ step External
        ∷ get 0 ∷ []) ≡ Command ∷ Activate ∷ Moved ∷ Moved ∷ Init ∷ [] }
    ensures shared1 { diary 1 (birth 5 0 0 ∷ birth_by 0 1 0 0 4 ∷ birth_by 1 2 0 0 4 ∷ birth_by 2 3 0 0 8 ∷ death 5 ∷ step External ∷ step External
        ∷ get 1 ∷ []) ≡ Command ∷ Activate ∷ Moved ∷ Init ∷ [] }
    ensures shared2 { diary 2 (birth 5 0 0 ∷ birth_by 0 1 0 0 4 ∷ birth_by 1 2 0 0 4 ∷ birth_by 2 3 0 0 8 ∷ death 5 ∷ step External ∷ step External
        ∷ get 2 ∷ []) ≡ Command ∷ Activate ∷ Init ∷ [] }
    ensures first0 { diary 0 (birth 0 0 8 ∷ block 0 ∷ birth_by 1 0 0 8 0 ∷ get 0 ∷ []) ≡ Command ∷ Process ∷ Activate ∷ Init ∷ [] }
    ensures beside0 { diary 0 (birth 0 0 8 ∷ birth 1 0 8 ∷ block 0 ∷ birth_by 2 0 100 8 0 ∷ get 0 ∷ [])
        ≡ Command ∷ Activate ∷ Moved ∷ Deactivate ∷ Process ∷ Activate ∷ Init ∷ [] }
    ensures beside1 { diary 1 (birth 0 0 8 ∷ birth 1 0 8 ∷ block 0 ∷ birth_by 2 0 100 8 0 ∷ get 0 ∷ get 1 ∷ []) ≡ Command ∷ Activate ∷ Moved ∷ Init ∷ [] }
    ensures deleted { diary 1 (birth 0 0 8 ∷ birth 1 0 8 ∷ block 0 ∷ death 0 ∷ block 1 ∷ []) ≡ Process ∷ Activate ∷ Init ∷ [] }
    ensures ended { diary 0 (birth 0 0 8 ∷ block 0 ∷ death 0 ∷ []) ≡ Deactivate ∷ Process ∷ Activate ∷ Init ∷ [] }
    ensures refused { diary 0 (birth 0 0 8 ∷ birth 0 1 8 ∷ death 3 ∷ rest 200 ∷ []) ≡ Init ∷ [] }
{}
