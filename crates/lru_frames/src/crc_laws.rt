//! Laws of the check. Each stands on a function that does nothing.
ghost use Rattle.std.specs.Prelude.{◌≡◌, ◌≢◌, ◌<◌, ◌≤◌, ◌^◌, ◌++◌, ℕ, List, [], length, codes};
ghost use Rattle.std.specs.List.{fold, AllByRecursion};
ghost use Rattle.std.specs.Int.{w64, to_le_bytes};
ghost use Rattle.lru_frames.specs.Crc.{step, crc_of, residue};

/// One byte leads no two states to one, and neither do more bytes.
pub fn one_state_before()
    ensures byte { (state other byte : ℕ) → state < 2 ^ 64 → other < 2 ^ 64
        → step state byte ≡ step other byte → state ≡ other }
    ensures bytes { (state other : ℕ) (bytes : List ℕ) → state < 2 ^ 64 → other < 2 ^ 64
        → fold step state bytes ≡ fold step other bytes → state ≡ other }
{}

/// Where bytes differ in their check, they do so with any bytes behind them.
pub fn appending_is_not_undone()
    ensures { (a b rest : List ℕ) → crc_of (a ++ rest) ≡ crc_of (b ++ rest) → crc_of a ≡ crc_of b }
{}

/// Bytes that differ only within 8 bytes side by side, wherever these begin, have different checks.
pub fn eight_side_by_side()
    ensures { (front a b back : List ℕ) → length a ≡ length b → length a ≤ 8
        → AllByRecursion (λ byte. byte < 256) a → AllByRecursion (λ byte. byte < 256) b
        → a ≢ b → crc_of (front ++ (a ++ back)) ≢ crc_of (front ++ (b ++ back)) }
{}

/// The check that the catalogues of checks print for the digits from 1 to 9, and that of no bytes.
pub fn published()
    ensures digits { crc_of (codes "123456789") ≡ 0x995D_C9BB_DF19_39FA }
    ensures none { crc_of [] ≡ 0 }
{}

/// The check is a number of 8 bytes, and any bytes with their check behind them have one and the same check.
pub fn with_their_check()
    ensures below { (bytes : List ℕ) → crc_of bytes < 2 ^ 64 }
    ensures residue { (bytes : List ℕ) → crc_of (bytes ++ to_le_bytes w64 (crc_of bytes)) ≡ residue }
{}
