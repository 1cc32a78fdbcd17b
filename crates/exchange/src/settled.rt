//! The settlement of a join.
ghost use Rattle.std.specs.Prelude.{◌≡◌, Some, None, [], ◌∷◌, option_copied, IfOk, OnOk};
ghost use Rattle.registry_model.specs.Settlement.{note, unsettled, with_put, with_remove, with_kill, with_notices, clash, settle_one, settle as settlement};
ghost use Rattle.term.specs.Rules.{rule_of};
ghost use Rattle.name_table.specs.Changes.{pair_under};

use crate::notices::{Noted, Notice};
use indexmap::IndexSet;
use name_table::{Names, Pair, Registration};
use std::alloc::{AllocError, Global};
use std::marker::Model;
use term::{Name, Pid, Rule};

/// What comes of the names of a lone node that joins.
#[derive(Debug, Drop)]
pub struct Settled {
    /// What the cluster writes first: names of the joiner, rising.
    pub puts: Vec<Pair>,
    /// The names that nobody has from then on, rising.
    pub removes: Vec<Name>,
    /// The processes that die, each once, in the order of their clashes.
    pub kills: IndexSet<Pid>,
    /// The notices that are sent, rising by name; of one name the cluster's process is sent its notice first.
    pub notices: Vec<Noted>,
}

impl Model for Settled {
    ghost use Rattle.registry_model.specs.Settlement.{Settled as Settlement};

    ghost Value = { Settlement };

    ghost view = { λ s. record {
      puts = s.puts.items;
      removes = s.removes.items;
      fate = record { kills = s.kills.keys; notices = s.notices.items };
    } };
}

impl Settled {
    /// Nothing is written, nobody dies, and nobody is sent anything.
    fn nothing(alloc: Global) -> Self
        ensures { result ≡ unsettled }
    {
        Settled {
            puts: Vec::new(alloc),
            removes: Vec::new(alloc),
            kills: IndexSet::new(alloc),
            notices: Vec::new(alloc),
        }
    }

    /// The joiner's process has its name.
    fn put(&mut self, pair: &Pair) -> Result<(), AllocError>
        ensures { OnOk result (self.new ≡ with_put pair.now self.old) }
    {
        self.puts.push(pair.copy())?;
        Ok(())
    }

    /// Nobody has the name.
    fn remove(&mut self, name: &Name) -> Result<(), AllocError>
        ensures { OnOk result (self.new ≡ with_remove name.now self.old) }
    {
        self.removes.push(name.copy())?;
        Ok(())
    }

    /// The process dies, if it doesn't already.
    fn kill(&mut self, process: &Pid) -> Result<(), AllocError>
        ensures { OnOk result (self.new ≡ with_kill process.now self.old) }
    {
        self.kills.insert(process.copy())?;
        Ok(())
    }

    /// The process is sent a notice of this name, which the other process lost too, if there is one.
    fn notify(&mut self, process: &Pid, name: &Name, other: Option<&Pid>) -> Result<(), AllocError>
        ensures { OnOk result (self.new
            ≡ with_notices (note process.now name.now (option_copied other.entry) ∷ []) self.old) }
    {
        let other = match other {
            Some(other) => Some(other.copy()),
            None => None,
        };
        self.notices.push(Noted {
            process: process.copy(),
            notice: Notice {
                name: name.copy(),
                other,
            },
        })?;
        Ok(())
    }

    /// A name of the joiner that this other process has in the cluster, under this rule.
    fn clash(&mut self, rule: Rule, pair: &Pair, rival: &Pid) -> Result<(), AllocError>
        ensures { OnOk result (self.new ≡ clash (rule_of rule) pair.now rival.now self.old) }
    {
        match rule {
            Rule::Exit if pair.owner.node < rival.node => {
                self.put(pair)?;
                self.kill(rival)
            }
            Rule::Exit => self.kill(&pair.owner),
            Rule::Notify if pair.owner.node < rival.node => {
                self.put(pair)?;
                self.notify(rival, &pair.name, None)
            }
            Rule::Notify => self.notify(&pair.owner, &pair.name, None),
            Rule::NotifyAll => {
                self.remove(&pair.name)?;
                self.notify(rival, &pair.name, Some(&pair.owner))?;
                self.notify(&pair.owner, &pair.name, Some(rival))
            }
        }
    }

    /// A name of the joiner, under which this stands in the cluster, or nothing.
    fn settle_one(&mut self, pair: &Pair, own: Option<Registration>) -> Result<(), AllocError>
        ensures { OnOk result (self.new ≡ settle_one pair.now (pair_under pair.now.name own) self.old) }
    {
        match own {
            None => self.put(pair),
            Some(own) if pair.owner != own.owner => self.clash(own.rule, pair, &own.owner),
            Some(_) => Ok(()),
        }
    }
}

/// Settles the names of a joiner, which rise, against the cluster's table. A name that nobody has in the cluster is put. Where two
/// processes have it, the rule of the cluster's entry decides. Under `Exit` and `Notify` the process on the lesser node keeps it, under
/// its own rule, which is a put where it is the joiner's, and the other dies, or is sent a notice. Under `NotifyAll` it is removed, and
/// both are sent notices. A name that has the same process in both is left as it is.
pub fn settle<N: Names>(alloc: Global, table: &N, pairs: &[Pair]) -> Result<Settled, AllocError>
    ensures { IfOk result (λ settled. settled ≡ settlement (N.contents table.now) pairs.now) }
{
    let mut settled = Settled::nothing(alloc);
    for pair in pairs {
        settled.settle_one(pair, table.get(&pair.name))?;
    }
    Ok(settled)
}
