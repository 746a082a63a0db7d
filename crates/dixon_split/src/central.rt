//! Lists of the values of central characters.

ghost use Rattle.std.specs.Prelude.{◌≡◌, ◌≤◌, ◌<◌, ◌%◌, ◌^◌, All, length, slice_index};
ghost use Rattle.std.specs.List.{concat};
ghost use Rattle.dixon_split.specs.CentralLists.{central_value};

use group_table::Nats;
use std::marker::Model;

/// Central characters modulo a prime: for each the list of its values, one for each regular class.
#[derive(Debug, Drop)]
pub struct Central {
    width: u32,
    values: Nats,
}

impl Model for Central {
    ghost use Rattle.std.specs.Prelude.{◌≡◌, ◌≤◌, ◌%◌, ◌^◌, ◌<◌, length};
    ghost use Rattle.dixon_split.specs.CentralLists.{CentralLists, central_lists};

    ghost Value = { CentralLists };

    ghost view = { λ central. central_lists central.width central.values };

    ghost invariant = { λ central. (1 ≤ central.width)
        × (length central.values % central.width ≡ 0) };
}

impl Central {
    /// The lists of `width` numbers each that stand one after another in `values`.
    pub fn from_lists(width: u32, values: Nats) -> Central
        requires from_one { 1 ≤ width }
        requires whole { length values % width ≡ 0 }
        ensures width { result.width ≡ width }
        ensures values { concat result.lists ≡ values }
        ensures widths { All (λ list. length list ≡ width) result.lists }
    {
        Central { width, values }
    }

    /// How many lists there are.
    pub fn count(&self) -> u32
        ensures count { result ≡ length self.now.lists }
        ensures small { length self.now.lists < 2 ^ 32 }
        ensures from_one { 1 ≤ self.now.width }
        ensures widths { All (λ list. length list ≡ self.now.width) self.now.lists }
    {
        self.values.len() / self.width
    }

    /// The value at the regular class `c` in list `i`, each counted from 0.
    pub fn value(&self, i: u32, c: u32) -> u32
        requires list { i < length self.now.lists }
        requires class { c < self.now.width }
        ensures value { result ≡ central_value self.now i c }
    {
        let place = i as usize * self.width as usize + c as usize;
        self.values.as_slice()[place]
    }
}
