// The system of pairs, as it is computed from tables.
ghost use Rattle.judge.specs.Tabled.{tabled};

use explore::Machine;
use follow::Tables;
use monitor::Monitor;
use pairs::Pair;

// What leads from pair to pair: the tables of a trace say which event may follow, and the monitor
// which code it leads to.
#[derive(Drop)]
pub(crate) struct PairMachine<'a, M> {
    pub(crate) tables: &'a Tables,
    pub(crate) monitor: &'a M,
    pub(crate) threads: u8,
}

impl<'a, M: Monitor> Machine<Pair> for PairMachine<'a, M> {
    ghost system = { λ s. tabled s.tables.now s.threads (M.Monitor.meaning s.monitor.now) };

    fn labels(&self) -> u8 {
        self.threads
    }

    fn first(&self) -> Pair {
        Pair {
            cut: [0; 8],
            code: self.monitor.start(),
        }
    }

    // Stays beside replay's step: no crate that both rest on knows tables and pairs.
    fn next(&self, node: Pair, label: u8) -> Option<Pair> {
        let event = self.tables.next(node.cut, label).ok()?;
        let mut cut = node.cut;
        cut[label as usize] += 1;
        let code = self.monitor.step(node.code, event.action());
        Some(Pair { cut, code })
    }
}
