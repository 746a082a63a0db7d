//! The twisted centralisers of all classes, made once for all that is asked of them.

ghost use Rattle.std.specs.Prelude.{◌≡◌, ◌<◌, ◌∷◌, [], ◌++◌, length, map, OnOk, IfOk};
ghost use Rattle.twisted.specs.Regular.{rank};
ghost use Rattle.qd_steps.specs.ClassTwists.{class_twists, twist_in};

use classes::Classes;
use cochain::Cocycle;
use group_table::{Memory, Nats};
use slant::twist_at;
use std::alloc::Global;
use std::marker::Model;
use twisted::{Twist, centre_rank};

/// The twisted centralisers of the representatives of all classes, seen as the list of them, in the order of the classes.
#[derive(Debug, Drop)]
pub struct ClassTwists {
    twists: Vec<Twist>,
}

impl Model for ClassTwists {
    ghost use Rattle.std.specs.Prelude.{◌^◌, ◌<◌, List, length};
    ghost use Rattle.twisted.specs.Twist.{TwistedSubgroup};

    ghost Value = { List TwistedSubgroup };

    ghost view = { λ all. all.twists.items };

    ghost invariant = { λ all. length all.twists.items < 2 ^ 32 };
}

/// Adds one more at the end.
fn push_twist(twists: &mut Vec<Twist>, twist: Twist) -> Result<(), Memory>
    ensures added { OnOk result (twists.new.items ≡ twists.old.items ++ twist ∷ []) }
{
    twists.push(twist)?;
    Ok(())
}

impl ClassTwists {
    /// Those of the cocycle `w`, of whose group these are the classes.
    pub fn of(alloc: Global, w: &Cocycle, classes: &Classes) -> Result<ClassTwists, Memory>
        requires group { classes.now ≡ w.now.group }
        ensures twists { IfOk result (λ all. all ≡ class_twists w.now) }
    {
        let mut twists = Vec::new(alloc);
        for c in 0..classes.count() {
            let twist = twist_at(alloc, w, classes.representative(c))?;
            push_twist(&mut twists, twist)?;
        }
        Ok(ClassTwists { twists })
    }

    /// How many there are.
    pub fn count(&self) -> u32
        ensures count { result ≡ length self.now }
    {
        self.twists.len() as u32
    }

    /// That of the class with the number `c`.
    pub fn at(&self, c: u32) -> &Twist
        requires c_below { c < length self.now }
        ensures twist { result.now ≡ twist_in self.now c }
    {
        &self.twists[c as usize]
    }

    /// The rank of each, in order.
    pub fn ranks(&self, alloc: Global) -> Result<Nats, Memory>
        ensures ranks { IfOk result (λ ranks. ranks ≡ map rank self.now) }
    {
        let mut ranks = Nats::empty(alloc);
        for c in 0..self.count() {
            ranks.push(centre_rank(self.at(c)))?;
        }
        Ok(ranks)
    }
}
