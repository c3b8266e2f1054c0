// A call as a value.
use events::{Action, Refusal};
use judge::{JudgeRefusal, Judgement, SearchRow};
use mapping::MapRefusal;
use monitor::Verdict;
use order::Row;
use replay::ReplayRefusal;

// A call with what it is handed, and its answer, which is None until the call is performed. Monitors
// of several kinds stand in one list as `monitor::Either`.
// Stays an enum, and no closure: a list of calls is data, which a caller lends and reads back.
#[derive(Drop)]
pub enum Call<M> {
    Note {
        action: Action,
        answer: Option<Result<u8, Refusal>>,
    },
    Map {
        rows: Vec<Row>,
        answer: Option<Result<usize, MapRefusal>>,
    },
    Replay {
        threads: Vec<u8>,
        monitor: M,
        answer: Option<Result<Verdict, ReplayRefusal>>,
    },
    Judge {
        monitor: M,
        rows: Vec<SearchRow>,
        threads: Vec<u8>,
        answer: Option<Result<Judgement, JudgeRefusal>>,
    },
}
