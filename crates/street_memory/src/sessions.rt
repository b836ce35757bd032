//! Sessions whose replies were worked out from the rules, apart from the engine: each line with its reply.

/// A session that one client calls.
pub(crate) struct Session {
    pub(crate) name: &'static str,
    /// How many workers share each step.
    pub(crate) workers: u32,
    /// The questions for each of its lanes.
    pub(crate) lanes: &'static [&'static str],
    pub(crate) lines: &'static [(&'static str, &'static str)],
}

/// Of the last two, the vehicles come into the tile of link 20 from another and stay there, so that its arena grows while steps
/// are made, and an advance may stop short. In the very last each of them changes lane in the step after it came.
pub(crate) static SESSIONS: [Session; 10] = [
    Session {
        name: "a vehicle arrives",
        workers: 1,
        lanes: &[
            r#"{"cmd":"lane","link":10,"lane":0}"#,
            r#"{"cmd":"lane","link":20,"lane":0}"#,
        ],
        lines: &[
            (
                r#"{"cmd":"load","nodes":[[1,1,2],[2,1,2],[3,1,2]],"links":[[10,1,2,1,10,5],[20,2,3,1,10,5]],"turns":[[10,0,20,0]],"zone":0,"dawdle":0,"change":0,"seed":0}"#,
                r#"{"links":2,"nodes":3,"turns":1}"#,
            ),
            (
                r#"{"cmd":"enter","plan":[10],"lane":0,"depart":0}"#,
                r#"{"car":0}"#,
            ),
            (r#"{"cmd":"advance","steps":5}"#, r#"{"clock":5}"#),
            (
                r#"{"cmd":"vehicle","car":0}"#,
                r#"{"car":0,"state":"arrived","step":4}"#,
            ),
        ],
    },
    Session {
        name: "red for ever",
        workers: 1,
        lanes: &[
            r#"{"cmd":"lane","link":10,"lane":0}"#,
            r#"{"cmd":"lane","link":20,"lane":0}"#,
        ],
        lines: &[
            (
                r#"{"cmd":"load","nodes":[[1,1,2],[2,1,2],[3,1,2]],"links":[[10,1,2,1,10,5],[20,2,3,1,10,5]],"turns":[[10,0,20,0]],"zone":0,"dawdle":0,"change":0,"seed":0}"#,
                r#"{"links":2,"nodes":3,"turns":1}"#,
            ),
            (
                r#"{"cmd":"signal","node":2,"offset":0,"phases":[[10,[]]]}"#,
                r#"{"cycle":10}"#,
            ),
            (
                r#"{"cmd":"enter","plan":[10,20],"lane":0,"depart":0}"#,
                r#"{"car":0}"#,
            ),
            (r#"{"cmd":"advance","steps":4}"#, r#"{"clock":4}"#),
            (
                r#"{"cmd":"vehicle","car":0}"#,
                r#"{"car":0,"cell":6,"lane":0,"link":10,"plan":[10,20],"speed":3,"state":"cell"}"#,
            ),
            (r#"{"cmd":"advance","steps":1}"#, r#"{"clock":5}"#),
            (
                r#"{"cmd":"vehicle","car":0}"#,
                r#"{"car":0,"cell":9,"lane":0,"link":10,"plan":[10,20],"speed":3,"state":"cell"}"#,
            ),
            (r#"{"cmd":"advance","steps":1}"#, r#"{"clock":6}"#),
            (
                r#"{"cmd":"vehicle","car":0}"#,
                r#"{"car":0,"cell":9,"lane":0,"link":10,"plan":[10,20],"speed":0,"state":"cell"}"#,
            ),
        ],
    },
    Session {
        name: "changes before a closure",
        workers: 1,
        lanes: &[
            r#"{"cmd":"lane","link":10,"lane":0}"#,
            r#"{"cmd":"lane","link":10,"lane":1}"#,
        ],
        lines: &[
            (
                r#"{"cmd":"load","nodes":[[1,1,2],[2,1,2]],"links":[[10,1,2,2,20,5]],"turns":[],"zone":0,"dawdle":0,"change":1000,"seed":0}"#,
                r#"{"links":1,"nodes":2,"turns":0}"#,
            ),
            (
                r#"{"cmd":"close","link":10,"lane":0,"first":5,"last":5}"#,
                r#"{"closed":1}"#,
            ),
            (
                r#"{"cmd":"enter","plan":[10],"lane":0,"depart":0}"#,
                r#"{"car":0}"#,
            ),
            (r#"{"cmd":"advance","steps":3}"#, r#"{"clock":3}"#),
            (
                r#"{"cmd":"vehicle","car":0}"#,
                r#"{"car":0,"cell":3,"lane":0,"link":10,"plan":[10],"speed":2,"state":"cell"}"#,
            ),
            (r#"{"cmd":"advance","steps":1}"#, r#"{"clock":4}"#),
            (
                r#"{"cmd":"vehicle","car":0}"#,
                r#"{"car":0,"cell":6,"lane":1,"link":10,"plan":[10],"speed":3,"state":"cell"}"#,
            ),
        ],
    },
    Session {
        name: "stays before a closure",
        workers: 1,
        lanes: &[
            r#"{"cmd":"lane","link":10,"lane":0}"#,
            r#"{"cmd":"lane","link":10,"lane":1}"#,
        ],
        lines: &[
            (
                r#"{"cmd":"load","nodes":[[1,1,2],[2,1,2]],"links":[[10,1,2,2,20,5]],"turns":[],"zone":0,"dawdle":0,"change":0,"seed":0}"#,
                r#"{"links":1,"nodes":2,"turns":0}"#,
            ),
            (
                r#"{"cmd":"close","link":10,"lane":0,"first":5,"last":5}"#,
                r#"{"closed":1}"#,
            ),
            (
                r#"{"cmd":"enter","plan":[10],"lane":0,"depart":0}"#,
                r#"{"car":0}"#,
            ),
            (r#"{"cmd":"advance","steps":4}"#, r#"{"clock":4}"#),
            (
                r#"{"cmd":"vehicle","car":0}"#,
                r#"{"car":0,"cell":4,"lane":0,"link":10,"plan":[10],"speed":1,"state":"cell"}"#,
            ),
            (r#"{"cmd":"advance","steps":1}"#, r#"{"clock":5}"#),
            (
                r#"{"cmd":"vehicle","car":0}"#,
                r#"{"car":0,"cell":4,"lane":0,"link":10,"plan":[10],"speed":0,"state":"cell"}"#,
            ),
        ],
    },
    Session {
        name: "follows into a cell just left",
        workers: 3,
        lanes: &[
            r#"{"cmd":"lane","link":10,"lane":0}"#,
            r#"{"cmd":"lane","link":20,"lane":0}"#,
        ],
        lines: &[
            (
                r#"{"cmd":"load","nodes":[[1,1,2],[2,1,2],[3,1,2]],"links":[[10,1,2,1,10,5],[20,2,3,1,10,5]],"turns":[[10,0,20,0]],"zone":0,"dawdle":0,"change":0,"seed":0}"#,
                r#"{"links":2,"nodes":3,"turns":1}"#,
            ),
            (
                r#"{"cmd":"enter","plan":[10,20],"lane":0,"depart":0}"#,
                r#"{"car":0}"#,
            ),
            (
                r#"{"cmd":"enter","plan":[20],"lane":0,"depart":4}"#,
                r#"{"car":1}"#,
            ),
            (r#"{"cmd":"advance","steps":6}"#, r#"{"clock":6}"#),
            (
                r#"{"cmd":"vehicle","car":1}"#,
                r#"{"car":1,"cell":1,"lane":0,"link":20,"plan":[20],"speed":1,"state":"cell"}"#,
            ),
            (
                r#"{"cmd":"vehicle","car":0}"#,
                r#"{"car":0,"cell":0,"lane":0,"link":20,"plan":[20],"speed":4,"state":"cell"}"#,
            ),
        ],
    },
    Session {
        name: "taken out between two",
        workers: 1,
        lanes: &[
            r#"{"cmd":"lane","link":10,"lane":0}"#,
            r#"{"cmd":"lane","link":20,"lane":0}"#,
        ],
        lines: &[
            (
                r#"{"cmd":"load","nodes":[[1,1,2],[2,1,2],[3,1,2]],"links":[[10,1,2,1,40,5],[20,2,3,1,10,5]],"turns":[[10,0,20,0]],"zone":0,"dawdle":0,"change":0,"seed":0}"#,
                r#"{"links":2,"nodes":3,"turns":1}"#,
            ),
            (
                r#"{"cmd":"enter","plan":[10],"lane":0,"depart":0}"#,
                r#"{"car":0}"#,
            ),
            (
                r#"{"cmd":"enter","plan":[10],"lane":0,"depart":0}"#,
                r#"{"car":1}"#,
            ),
            (
                r#"{"cmd":"enter","plan":[10],"lane":0,"depart":0}"#,
                r#"{"car":2}"#,
            ),
            (r#"{"cmd":"advance","steps":5}"#, r#"{"clock":5}"#),
            (
                r#"{"cmd":"vehicle","car":0}"#,
                r#"{"car":0,"cell":10,"lane":0,"link":10,"plan":[10],"speed":4,"state":"cell"}"#,
            ),
            (
                r#"{"cmd":"vehicle","car":1}"#,
                r#"{"car":1,"cell":3,"lane":0,"link":10,"plan":[10],"speed":2,"state":"cell"}"#,
            ),
            (
                r#"{"cmd":"vehicle","car":2}"#,
                r#"{"car":2,"cell":0,"lane":0,"link":10,"plan":[10],"speed":0,"state":"cell"}"#,
            ),
            (r#"{"cmd":"takeout","car":1}"#, r#"{"taken":1}"#),
            (
                r#"{"cmd":"lane","link":10,"lane":0}"#,
                r#"{"buffer":[],"cells":[[0,10,4],[2,0,0]],"closed":[],"waiting":[]}"#,
            ),
            (r#"{"cmd":"advance","steps":1}"#, r#"{"clock":6}"#),
            (
                r#"{"cmd":"lane","link":10,"lane":0}"#,
                r#"{"buffer":[],"cells":[[0,15,5],[2,1,1]],"closed":[],"waiting":[]}"#,
            ),
            (
                r#"{"cmd":"takeout","car":1}"#,
                r#"{"error":11,"name":"Gone"}"#,
            ),
            (
                r#"{"cmd":"vehicle","car":1}"#,
                r#"{"car":1,"state":"taken","step":5}"#,
            ),
        ],
    },
    Session {
        name: "rows of a detector",
        workers: 1,
        lanes: &[
            r#"{"cmd":"lane","link":10,"lane":0}"#,
            r#"{"cmd":"lane","link":20,"lane":0}"#,
        ],
        lines: &[
            (
                r#"{"cmd":"load","nodes":[[1,1,2],[2,1,2],[3,1,2]],"links":[[10,1,2,1,10,5],[20,2,3,1,10,5]],"turns":[[10,0,20,0]],"zone":0,"dawdle":0,"change":0,"seed":0}"#,
                r#"{"links":2,"nodes":3,"turns":1}"#,
            ),
            (
                r#"{"cmd":"meter","link":10,"lane":0,"cell":3,"period":2}"#,
                r#"{"meter":0}"#,
            ),
            (
                r#"{"cmd":"enter","plan":[10],"lane":0,"depart":0}"#,
                r#"{"car":0}"#,
            ),
            (r#"{"cmd":"advance","steps":5}"#, r#"{"clock":5}"#),
            (
                r#"{"cmd":"read","meter":0}"#,
                r#"{"now":[4,1,0,0,0],"rows":[[0,0,0,0],[2,1,3,1]]}"#,
            ),
            (r#"{"cmd":"advance","steps":1}"#, r#"{"clock":6}"#),
            (
                r#"{"cmd":"read","meter":0}"#,
                r#"{"now":[6,0,0,0,0],"rows":[[0,0,0,0],[2,1,3,1],[4,0,0,0]]}"#,
            ),
        ],
    },
    Session {
        name: "last rows of a detector",
        workers: 1,
        lanes: &[
            r#"{"cmd":"lane","link":10,"lane":0}"#,
            r#"{"cmd":"lane","link":20,"lane":0}"#,
        ],
        lines: &[
            (
                r#"{"cmd":"load","nodes":[[1,1,2],[2,1,2],[3,1,2]],"links":[[10,1,2,1,10,5],[20,2,3,1,10,5]],"turns":[[10,0,20,0]],"zone":0,"dawdle":0,"change":0,"seed":0}"#,
                r#"{"links":2,"nodes":3,"turns":1}"#,
            ),
            (
                r#"{"cmd":"meter","link":10,"lane":0,"cell":0,"period":1}"#,
                r#"{"meter":0}"#,
            ),
            (r#"{"cmd":"advance","steps":33}"#, r#"{"clock":33}"#),
            (
                r#"{"cmd":"read","meter":0}"#,
                r#"{"now":[33,0,0,0,0],"rows":[[1,0,0,0],[2,0,0,0],[3,0,0,0],[4,0,0,0],[5,0,0,0],[6,0,0,0],[7,0,0,0],[8,0,0,0],[9,0,0,0],[10,0,0,0],[11,0,0,0],[12,0,0,0],[13,0,0,0],[14,0,0,0],[15,0,0,0],[16,0,0,0],[17,0,0,0],[18,0,0,0],[19,0,0,0],[20,0,0,0],[21,0,0,0],[22,0,0,0],[23,0,0,0],[24,0,0,0],[25,0,0,0],[26,0,0,0],[27,0,0,0],[28,0,0,0],[29,0,0,0],[30,0,0,0],[31,0,0,0],[32,0,0,0]]}"#,
            ),
        ],
    },
    Session {
        name: "a queue in another tile",
        workers: 3,
        lanes: &[
            r#"{"cmd":"lane","link":10,"lane":0}"#,
            r#"{"cmd":"lane","link":20,"lane":0}"#,
        ],
        lines: &[
            (
                r#"{"cmd":"load","nodes":[[1,1,2],[2,1,2],[3,1,2]],"links":[[10,1,2,1,10,5],[20,2,3,1,10,5]],"turns":[[10,0,20,0]],"zone":0,"dawdle":0,"change":0,"seed":0}"#,
                r#"{"links":2,"nodes":3,"turns":1}"#,
            ),
            (
                r#"{"cmd":"close","link":20,"lane":0,"first":9,"last":9}"#,
                r#"{"closed":1}"#,
            ),
            (
                r#"{"cmd":"enter","plan":[10,20],"lane":0,"depart":0}"#,
                r#"{"car":0}"#,
            ),
            (
                r#"{"cmd":"enter","plan":[10,20],"lane":0,"depart":0}"#,
                r#"{"car":1}"#,
            ),
            (
                r#"{"cmd":"enter","plan":[10,20],"lane":0,"depart":0}"#,
                r#"{"car":2}"#,
            ),
            (
                r#"{"cmd":"enter","plan":[10,20],"lane":0,"depart":0}"#,
                r#"{"car":3}"#,
            ),
            (
                r#"{"cmd":"enter","plan":[10,20],"lane":0,"depart":0}"#,
                r#"{"car":4}"#,
            ),
            (
                r#"{"cmd":"enter","plan":[10,20],"lane":0,"depart":0}"#,
                r#"{"car":5}"#,
            ),
            (r#"{"cmd":"advance","steps":20}"#, r#"{"clock":20}"#),
            (
                r#"{"cmd":"lane","link":20,"lane":0}"#,
                r#"{"buffer":[],"cells":[[0,8,0],[1,7,0],[2,6,0],[3,5,0],[4,4,0],[5,3,0]],"closed":[[9,9]],"waiting":[]}"#,
            ),
            (
                r#"{"cmd":"count"}"#,
                r#"{"admitted":6,"arrived":0,"buffers":0,"cells":6,"clock":20,"taken":0,"waiting":0}"#,
            ),
        ],
    },
    Session {
        name: "lane changes in another tile",
        workers: 3,
        lanes: &[
            r#"{"cmd":"lane","link":10,"lane":0}"#,
            r#"{"cmd":"lane","link":20,"lane":0}"#,
            r#"{"cmd":"lane","link":20,"lane":1}"#,
        ],
        lines: &[
            (
                r#"{"cmd":"load","nodes":[[1,1,2],[2,1,2],[3,1,2]],"links":[[10,1,2,1,10,5],[20,2,3,2,30,5]],"turns":[[10,0,20,0]],"zone":0,"dawdle":0,"change":1000,"seed":0}"#,
                r#"{"links":2,"nodes":3,"turns":1}"#,
            ),
            (
                r#"{"cmd":"close","link":20,"lane":0,"first":3,"last":29}"#,
                r#"{"closed":27}"#,
            ),
            (
                r#"{"cmd":"close","link":20,"lane":1,"first":29,"last":29}"#,
                r#"{"closed":1}"#,
            ),
            (
                r#"{"cmd":"enter","plan":[10,20],"lane":0,"depart":0}"#,
                r#"{"car":0}"#,
            ),
            (
                r#"{"cmd":"enter","plan":[10,20],"lane":0,"depart":0,"size":2}"#,
                r#"{"car":1}"#,
            ),
            (
                r#"{"cmd":"enter","plan":[10,20],"lane":0,"depart":0}"#,
                r#"{"car":2}"#,
            ),
            (
                r#"{"cmd":"enter","plan":[10,20],"lane":0,"depart":0}"#,
                r#"{"car":3}"#,
            ),
            (
                r#"{"cmd":"enter","plan":[10,20],"lane":0,"depart":0}"#,
                r#"{"car":4}"#,
            ),
            (
                r#"{"cmd":"enter","plan":[10,20],"lane":0,"depart":0}"#,
                r#"{"car":5}"#,
            ),
            (
                r#"{"cmd":"enter","plan":[10,20],"lane":0,"depart":0}"#,
                r#"{"car":6}"#,
            ),
            (
                r#"{"cmd":"enter","plan":[10,20],"lane":0,"depart":0}"#,
                r#"{"car":7}"#,
            ),
            (r#"{"cmd":"advance","steps":22}"#, r#"{"clock":22}"#),
            (
                r#"{"cmd":"lane","link":20,"lane":0}"#,
                r#"{"buffer":[],"cells":[],"closed":[[3,29]],"waiting":[]}"#,
            ),
            (
                r#"{"cmd":"lane","link":20,"lane":1}"#,
                r#"{"buffer":[],"cells":[[0,28,0],[1,27,0,2],[2,25,0],[3,24,0],[4,23,0],[5,22,0],[6,20,5],[7,10,5]],"closed":[[29,29]],"waiting":[]}"#,
            ),
            (
                r#"{"cmd":"count"}"#,
                r#"{"admitted":8,"arrived":0,"buffers":0,"cells":8,"clock":22,"taken":0,"waiting":0}"#,
            ),
        ],
    },
];
