//! A zone's ends turn at most twice: its low end begins to move, and its high end stops.

ghost use Rattle.std.specs.Prelude.{◌≡◌, ◌⊎◌, ◌↔◌, IsTrue, pos, ◌≤ℤ◌, ◌<ℤ◌, ◌+ℤ◌, ◌-ℤ◌};
ghost use Rattle.std.specs.Int.{int_max, int_min};
ghost use Rattle.zone_core.specs.Zone.{IsNear, IsTight, Within, moment_reach};
ghost use Rattle.band_normal.specs.Pieces.{IsPiece};

use crate::band::{Band, End};
use zone_core::Bounds;

// Before the departure `c - e` the low end stays, and from it on it moves.
fn low_end(k: Bounds, from: i64, to: i64) -> End
    requires k_near { IsNear k }
    requires from_near { Within moment_reach from }
    ensures single { from ≡ to → result ≡ End.Fixed (int_max k.c (from +ℤ k.e)) }
    ensures stays { from <ℤ to → from <ℤ (k.c -ℤ k.e) → result ≡ End.Fixed k.c }
    ensures moves { from <ℤ to → (k.c -ℤ k.e) ≤ℤ from → result ≡ End.Moving k.e }
{
    if from == to {
        return End::Fixed(k.c.max(from + k.e));
    }
    if from < k.c - k.e {
        End::Fixed(k.c)
    } else {
        End::Moving(k.e)
    }
}

// Before the departure `d - f` the high end moves, and from it on it stays.
fn high_end(k: Bounds, from: i64, to: i64) -> End
    requires k_near { IsNear k }
    requires from_near { Within moment_reach from }
    ensures single { from ≡ to → result ≡ End.Fixed (int_min k.d (from +ℤ k.f)) }
    ensures moves { from <ℤ to → from <ℤ (k.d -ℤ k.f) → result ≡ End.Moving k.f }
    ensures stays { from <ℤ to → (k.d -ℤ k.f) ≤ℤ from → result ≡ End.Fixed k.d }
{
    if from == to {
        return End::Fixed(k.d.min(from + k.f));
    }
    if from < k.d - k.f {
        End::Moving(k.f)
    } else {
        End::Fixed(k.d)
    }
}

// Where the piece from `from` on ends: at the turn, if it lies before `to`.
fn cut(from: i64, turn: i64, to: i64) -> i64
    requires { from ≤ℤ to }
    ensures span { from ≤ℤ result }
    ensures within { result ≤ℤ to }
    ensures turned { from <ℤ turn → result ≤ℤ turn }
    ensures cause { (result ≡ to) ⊎ ((result ≡ turn) × (from <ℤ turn) × (turn <ℤ to)) }
{
    if from < turn && turn < to { turn } else { to }
}

fn piece(k: Bounds, from: i64) -> Band
    requires near { IsNear k }
    requires tight { IsTight k }
    requires first { k.a ≤ℤ from }
    requires last { from ≤ℤ k.b }
    ensures { IsPiece k from result }
{
    let to = cut(from, k.d - k.f, cut(from, k.c - k.e, k.b));
    Band {
        from,
        to,
        low: low_end(k, from, to),
        high: high_end(k, from, to),
    }
}

pub fn first_piece(k: Bounds) -> Band
    requires near { IsNear k }
    requires tight { IsTight k }
    ensures { IsPiece k k.a result }
{
    piece(k, k.a)
}

pub fn piece_after(k: Bounds, before: Band) -> Band
    requires near { IsNear k }
    requires tight { IsTight k }
    requires first { k.a ≤ℤ before.to }
    requires last { before.to <ℤ k.b }
    ensures { IsPiece k (before.to +ℤ pos 1) result }
{
    piece(k, before.to + 1)
}
