//! Worked rows. Each table begins with empty shards; what is named with it is their number, and the weight limit.
use crate::asked::Asked::{
    Admit, EvictShard, EvictStep, EvictToLimit, Increment, InsertTail, Peek, PeekLru, PeekWeight,
    Promote, PromoteTopN, Remove, SetWeight, SetWeightLimit, Totals, Update,
};
use crate::asked::Step;

const HALF: usize = 9223372036854775807;

const THIRD: usize = 6148914691236517205;

const MOST: usize = 18446744073709551615;

/// Two shards, 100.
#[rattlefmt::skip]
pub static PROMOTES: [Step; 11] = [
    (Admit(2, 2, 2), "Shard(Ok(0))", "2: [(2, 2)] []"),
    (Admit(3, 3, 3), "Shard(Ok(1))", "5: [(2, 2)] [(3, 3)]"),
    (Admit(4, 4, 4), "Shard(Ok(0))", "9: [(4, 4), (2, 2)] [(3, 3)]"),
    (Admit(5, 5, 5), "Shard(Ok(1))", "14: [(4, 4), (2, 2)] [(5, 5), (3, 3)]"),
    (Admit(6, 6, 6), "Shard(Ok(0))", "20: [(6, 6), (4, 4), (2, 2)] [(5, 5), (3, 3)]"),
    (Promote(2), "Held(true)", "20: [(2, 2), (6, 6), (4, 4)] [(5, 5), (3, 3)]"),
    (PromoteTopN(4, 3), "Held(true)", "20: [(2, 2), (6, 6), (4, 4)] [(5, 5), (3, 3)]"),
    (PromoteTopN(4, 2), "Held(true)", "20: [(4, 4), (2, 2), (6, 6)] [(5, 5), (3, 3)]"),
    (PromoteTopN(4, 0), "Held(true)", "20: [(4, 4), (2, 2), (6, 6)] [(5, 5), (3, 3)]"),
    (PromoteTopN(6, 0), "Held(true)", "20: [(6, 6), (4, 4), (2, 2)] [(5, 5), (3, 3)]"),
    (PromoteTopN(7, 1), "Held(false)", "20: [(6, 6), (4, 4), (2, 2)] [(5, 5), (3, 3)]"),
];

/// One shard, 100.
#[rattlefmt::skip]
pub static SETS_WEIGHTS: [Step; 7] = [
    (Admit(1, 1, 1), "Shard(Ok(0))", "1: [(1, 1)]"),
    (Admit(2, 2, 2), "Shard(Ok(0))", "3: [(2, 2), (1, 1)]"),
    (Admit(3, 3, 3), "Shard(Ok(0))", "6: [(3, 3), (2, 2), (1, 1)]"),
    (SetWeight(2, 5), "Was(Ok(Some(2)))", "9: [(3, 3), (2, 5), (1, 1)]"),
    (SetWeight(9, 9), "Was(Ok(None))", "9: [(3, 3), (2, 5), (1, 1)]"),
    (SetWeight(2, 0), "Was(Ok(Some(5)))", "5: [(3, 3), (2, 1), (1, 1)]"),
    (PeekWeight(2), "Known(Some(1))", "5: [(3, 3), (2, 1), (1, 1)]"),
];

/// One shard, 100.
#[rattlefmt::skip]
pub static WEIGHS_NEW_ROWS: [Step; 7] = [
    (Increment(7, 70, 4, Some(0)), "Weight(Ok(1))", "1: [(70, 1)]"),
    (SetWeight(7, 5), "Was(Ok(Some(1)))", "5: [(70, 5)]"),
    (Increment(7, 71, 1, Some(3)), "Weight(Ok(5))", "5: [(70, 5)]"),
    (InsertTail(1, 10, 0), "Inserted(Ok(true))", "5: [(70, 5), (10, 0)]"),
    (InsertTail(7, 72, 9), "Inserted(Ok(false))", "5: [(70, 5), (10, 0)]"),
    (Update(1, 11, 12, 0), "Updated(Ok(Some(0)))", "6: [(11, 1), (70, 5)]"),
    (Update(3, 31, 30, 0), "Updated(Ok(None))", "7: [(30, 1), (11, 1), (70, 5)]"),
];

/// One shard, 100.
#[rattlefmt::skip]
pub static INCREMENTS: [Step; 4] = [
    (Increment(1, 10, 4, Some(0)), "Weight(Ok(1))", "1: [(10, 1)]"),
    (Admit(2, 20, 5), "Shard(Ok(0))", "6: [(20, 5), (10, 1)]"),
    (Admit(3, 30, 7), "Shard(Ok(0))", "13: [(30, 7), (20, 5), (10, 1)]"),
    (Increment(2, 0, 1, Some(3)), "Weight(Ok(5))", "13: [(20, 5), (30, 7), (10, 1)]"),
];

/// One shard, 100.
#[rattlefmt::skip]
pub static COUNTS_A_ROW_OF_WEIGHT_0_ONCE: [Step; 3] = [
    (InsertTail(1, 1, 0), "Inserted(Ok(true))", "0: [(1, 0)]"),
    (Admit(1, 1, 5), "Shard(Ok(0))", "5: [(1, 5)]"),
    (Totals, "Totals { len: 1, weight: 5, evicted_len: 0, evicted_weight: 0 }", "5: [(1, 5)]"),
];

/// One shard, 10.
#[rattlefmt::skip]
pub static EVICTS_THE_OLDEST: [Step; 11] = [
    (Admit(0, 0, 2), "Shard(Ok(0))", "2: [(0, 2)]"),
    (Admit(1, 1, 2), "Shard(Ok(0))", "4: [(1, 2), (0, 2)]"),
    (Admit(2, 2, 2), "Shard(Ok(0))", "6: [(2, 2), (1, 2), (0, 2)]"),
    (Admit(3, 3, 2), "Shard(Ok(0))", "8: [(3, 2), (2, 2), (1, 2), (0, 2)]"),
    (Admit(4, 4, 2), "Shard(Ok(0))", "10: [(4, 2), (3, 2), (2, 2), (1, 2), (0, 2)]"),
    (EvictToLimit, "Evicted(Ok([]))", "10: [(4, 2), (3, 2), (2, 2), (1, 2), (0, 2)]"),
    (SetWeightLimit(4), "Done", "10: [(4, 2), (3, 2), (2, 2), (1, 2), (0, 2)]"),
    (EvictToLimit, "Evicted(Ok([(0, 2), (1, 2), (2, 2)]))", "4: [(4, 2), (3, 2)]"),
    (Totals, "Totals { len: 2, weight: 4, evicted_len: 3, evicted_weight: 6 }", "4: [(4, 2), (3, 2)]"),
    (SetWeightLimit(20), "Done", "4: [(4, 2), (3, 2)]"),
    (EvictToLimit, "Evicted(Ok([]))", "4: [(4, 2), (3, 2)]"),
];

/// Two shards, 14.
#[rattlefmt::skip]
pub static STEPS_TO_A_VICTIM: [Step; 8] = [
    (Admit(2, 2, 2), "Shard(Ok(0))", "2: [(2, 2)] []"),
    (Admit(3, 3, 2), "Shard(Ok(1))", "4: [(2, 2)] [(3, 2)]"),
    (Admit(4, 4, 4), "Shard(Ok(0))", "8: [(4, 4), (2, 2)] [(3, 2)]"),
    (Admit(5, 5, 4), "Shard(Ok(1))", "12: [(4, 4), (2, 2)] [(5, 4), (3, 2)]"),
    (Admit(6, 6, 2), "Shard(Ok(0))", "14: [(6, 2), (4, 4), (2, 2)] [(5, 4), (3, 2)]"),
    (Admit(7, 7, 2), "Shard(Ok(1))", "16: [(6, 2), (4, 4), (2, 2)] [(7, 2), (5, 4), (3, 2)]"),
    (EvictStep(1, 0), "Left(Some((3, 2)))", "14: [(6, 2), (4, 4), (2, 2)] [(7, 2), (5, 4)]"),
    (EvictStep(1, 0), "Left(None)", "14: [(6, 2), (4, 4), (2, 2)] [(7, 2), (5, 4)]"),
];

/// Four shards, 1.
#[rattlefmt::skip]
pub static GOES_ROUND_THE_CIRCLE: [Step; 3] = [
    (Admit(2, 2, 1), "Shard(Ok(2))", "1: [] [] [(2, 1)] []"),
    (Admit(6, 6, 1), "Shard(Ok(2))", "2: [] [] [(6, 1), (2, 1)] []"),
    (EvictStep(3, 0), "Left(Some((2, 1)))", "1: [] [] [(6, 1)] []"),
];

/// Two shards, 100.
#[rattlefmt::skip]
pub static WEIGHS_A_HALF: [Step; 4] = [
    (Admit(0, 10, HALF), "Shard(Ok(0))", "9223372036854775807: [(10, 9223372036854775807)] []"),
    (Admit(2, 11, 1), "Shard(Err(Refused { cause: Weight, held: 11 }))", "9223372036854775807: [(10, 9223372036854775807)] []"),
    (Admit(1, 12, HALF), "Shard(Ok(1))", "18446744073709551614: [(10, 9223372036854775807)] [(12, 9223372036854775807)]"),
    (Totals, "Totals { len: 2, weight: 18446744073709551614, evicted_len: 0, evicted_weight: 0 }", "18446744073709551614: [(10, 9223372036854775807)] [(12, 9223372036854775807)]"),
];

/// Three shards, 18446744073709551615.
#[rattlefmt::skip]
pub static WEIGHS_A_THIRD: [Step; 9] = [
    (Admit(0, 10, THIRD + 1), "Shard(Err(Refused { cause: Weight, held: 10 }))", "0: [] [] []"),
    (Admit(0, 20, THIRD), "Shard(Ok(0))", "6148914691236517205: [(20, 6148914691236517205)] [] []"),
    (SetWeight(0, THIRD + 1), "Was(Err(Weight))", "6148914691236517205: [(20, 6148914691236517205)] [] []"),
    (Admit(1, 11, THIRD + 1), "Shard(Err(Refused { cause: Weight, held: 11 }))", "6148914691236517205: [(20, 6148914691236517205)] [] []"),
    (Admit(1, 21, THIRD), "Shard(Ok(1))", "12297829382473034410: [(20, 6148914691236517205)] [(21, 6148914691236517205)] []"),
    (SetWeight(1, THIRD + 1), "Was(Err(Weight))", "12297829382473034410: [(20, 6148914691236517205)] [(21, 6148914691236517205)] []"),
    (Admit(2, 12, THIRD + 1), "Shard(Err(Refused { cause: Weight, held: 12 }))", "12297829382473034410: [(20, 6148914691236517205)] [(21, 6148914691236517205)] []"),
    (Admit(2, 22, THIRD), "Shard(Ok(2))", "18446744073709551615: [(20, 6148914691236517205)] [(21, 6148914691236517205)] [(22, 6148914691236517205)]"),
    (SetWeight(2, THIRD + 1), "Was(Err(Weight))", "18446744073709551615: [(20, 6148914691236517205)] [(21, 6148914691236517205)] [(22, 6148914691236517205)]"),
];

/// One shard, 0.
#[rattlefmt::skip]
pub static COUNTS_UP_TO_THE_WIDTH: [Step; 9] = [
    (Admit(1, 10, MOST), "Shard(Ok(0))", "18446744073709551615: [(10, 18446744073709551615)]"),
    (Increment(1, 13, 5, None), "Weight(Ok(18446744073709551615))", "18446744073709551615: [(10, 18446744073709551615)]"),
    (Admit(2, 11, 1), "Shard(Err(Refused { cause: Weight, held: 11 }))", "18446744073709551615: [(10, 18446744073709551615)]"),
    (InsertTail(2, 11, 0), "Inserted(Ok(true))", "18446744073709551615: [(10, 18446744073709551615), (11, 0)]"),
    (EvictToLimit, "Evicted(Ok([(11, 0), (10, 18446744073709551615)]))", "0: []"),
    (Totals, "Totals { len: 0, weight: 0, evicted_len: 2, evicted_weight: 18446744073709551615 }", "0: []"),
    (Admit(3, 12, 1), "Shard(Ok(0))", "1: [(12, 1)]"),
    (EvictToLimit, "Evicted(Ok([(12, 1)]))", "0: []"),
    (Totals, "Totals { len: 0, weight: 0, evicted_len: 3, evicted_weight: 0 }", "0: []"),
];

/// Two shards, 10.
#[rattlefmt::skip]
pub static ANSWERS_EACH_CALL: [Step; 18] = [
    (Admit(0, 0, 2), "Shard(Ok(0))", "2: [(0, 2)] []"),
    (Admit(1, 10, 3), "Shard(Ok(1))", "5: [(0, 2)] [(10, 3)]"),
    (Admit(2, 20, 0), "Shard(Ok(0))", "6: [(20, 1), (0, 2)] [(10, 3)]"),
    (Peek(2), "Held(true)", "6: [(20, 1), (0, 2)] [(10, 3)]"),
    (Peek(3), "Held(false)", "6: [(20, 1), (0, 2)] [(10, 3)]"),
    (PeekWeight(2), "Known(Some(1))", "6: [(20, 1), (0, 2)] [(10, 3)]"),
    (PeekWeight(3), "Known(None)", "6: [(20, 1), (0, 2)] [(10, 3)]"),
    (PeekLru(0), "Last(Ok(Some((0, 2))))", "6: [(20, 1), (0, 2)] [(10, 3)]"),
    (PeekLru(1), "Last(Ok(Some((10, 3))))", "6: [(20, 1), (0, 2)] [(10, 3)]"),
    (PeekLru(2), "Last(Ok(None))", "6: [(20, 1), (0, 2)] [(10, 3)]"),
    (PeekLru(MOST), "Last(Ok(None))", "6: [(20, 1), (0, 2)] [(10, 3)]"),
    (EvictShard(5), "Left(Some((10, 3)))", "3: [(20, 1), (0, 2)] []"),
    (EvictShard(5), "Left(None)", "3: [(20, 1), (0, 2)] []"),
    (PeekLru(1), "Last(Ok(None))", "3: [(20, 1), (0, 2)] []"),
    (Remove(0), "Left(Some((0, 2)))", "1: [(20, 1)] []"),
    (Remove(0), "Left(None)", "1: [(20, 1)] []"),
    (Promote(0), "Held(false)", "1: [(20, 1)] []"),
    (Totals, "Totals { len: 1, weight: 1, evicted_len: 1, evicted_weight: 3 }", "1: [(20, 1)] []"),
];

/// Two shards, 10.
#[rattlefmt::skip]
pub static ANSWERS_WHERE_NOTHING_IS: [Step; 5] = [
    (PeekLru(0), "Last(Ok(None))", "0: [] []"),
    (PeekLru(2), "Last(Ok(None))", "0: [] []"),
    (EvictShard(1), "Left(None)", "0: [] []"),
    (EvictToLimit, "Evicted(Ok([]))", "0: [] []"),
    (Totals, "Totals { len: 0, weight: 0, evicted_len: 0, evicted_weight: 0 }", "0: [] []"),
];

/// Two cores of one shard, 3 and 5: the steps of each, side by side.
#[rattlefmt::skip]
pub static UNDER_TWO_LIMITS: [(Step, Step); 10] = [
    ((Admit(1, 1, 2), "Shard(Ok(0))", "2: [(1, 2)]"),
        (Admit(1, 1, 2), "Shard(Ok(0))", "2: [(1, 2)]")),
    ((EvictToLimit, "Evicted(Ok([]))", "2: [(1, 2)]"),
        (EvictToLimit, "Evicted(Ok([]))", "2: [(1, 2)]")),
    ((Admit(2, 2, 2), "Shard(Ok(0))", "4: [(2, 2), (1, 2)]"),
        (Admit(2, 2, 2), "Shard(Ok(0))", "4: [(2, 2), (1, 2)]")),
    ((EvictToLimit, "Evicted(Ok([(1, 2)]))", "2: [(2, 2)]"),
        (EvictToLimit, "Evicted(Ok([]))", "4: [(2, 2), (1, 2)]")),
    ((Admit(3, 3, 2), "Shard(Ok(0))", "4: [(3, 2), (2, 2)]"),
        (Admit(3, 3, 2), "Shard(Ok(0))", "6: [(3, 2), (2, 2), (1, 2)]")),
    ((EvictToLimit, "Evicted(Ok([(2, 2)]))", "2: [(3, 2)]"),
        (EvictToLimit, "Evicted(Ok([(1, 2)]))", "4: [(3, 2), (2, 2)]")),
    ((Admit(1, 1, 2), "Shard(Ok(0))", "4: [(1, 2), (3, 2)]"),
        (Admit(1, 1, 2), "Shard(Ok(0))", "6: [(1, 2), (3, 2), (2, 2)]")),
    ((EvictToLimit, "Evicted(Ok([(3, 2)]))", "2: [(1, 2)]"),
        (EvictToLimit, "Evicted(Ok([(2, 2)]))", "4: [(1, 2), (3, 2)]")),
    ((Admit(4, 4, 2), "Shard(Ok(0))", "4: [(4, 2), (1, 2)]"),
        (Admit(4, 4, 2), "Shard(Ok(0))", "6: [(4, 2), (1, 2), (3, 2)]")),
    ((EvictToLimit, "Evicted(Ok([(1, 2)]))", "2: [(4, 2)]"),
        (EvictToLimit, "Evicted(Ok([(3, 2)]))", "4: [(4, 2), (1, 2)]")),
];

/// Two cores of one shard, both 10, the first with a watermark of 2. It comes to have no key 1: its weight, its row and
/// its place are the second's alone.
#[rattlefmt::skip]
pub static UNDER_A_WATERMARK: [(Step, Step); 9] = [
    ((Admit(1, 1, 3), "Shard(Ok(0))", "3: [(1, 3)]"),
        (Admit(1, 1, 3), "Shard(Ok(0))", "3: [(1, 3)]")),
    ((EvictToLimit, "Evicted(Ok([]))", "3: [(1, 3)]"),
        (EvictToLimit, "Evicted(Ok([]))", "3: [(1, 3)]")),
    ((Admit(2, 2, 3), "Shard(Ok(0))", "6: [(2, 3), (1, 3)]"),
        (Admit(2, 2, 3), "Shard(Ok(0))", "6: [(2, 3), (1, 3)]")),
    ((EvictToLimit, "Evicted(Ok([]))", "6: [(2, 3), (1, 3)]"),
        (EvictToLimit, "Evicted(Ok([]))", "6: [(2, 3), (1, 3)]")),
    ((Admit(3, 3, 3), "Shard(Ok(0))", "9: [(3, 3), (2, 3), (1, 3)]"),
        (Admit(3, 3, 3), "Shard(Ok(0))", "9: [(3, 3), (2, 3), (1, 3)]")),
    ((EvictToLimit, "Evicted(Ok([(1, 3)]))", "6: [(3, 3), (2, 3)]"),
        (EvictToLimit, "Evicted(Ok([]))", "9: [(3, 3), (2, 3), (1, 3)]")),
    ((SetWeight(1, 4), "Was(Ok(None))", "6: [(3, 3), (2, 3)]"),
        (SetWeight(1, 4), "Was(Ok(Some(3)))", "10: [(3, 3), (2, 3), (1, 4)]")),
    ((Remove(3), "Left(Some((3, 3)))", "3: [(2, 3)]"),
        (Remove(3), "Left(Some((3, 3)))", "7: [(2, 3), (1, 4)]")),
    ((Admit(1, 11, 5), "Shard(Ok(0))", "8: [(11, 5), (2, 3)]"),
        (Admit(1, 11, 5), "Shard(Ok(0))", "8: [(11, 5), (2, 3)]")),
];
