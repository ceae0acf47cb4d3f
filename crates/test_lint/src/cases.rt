use std::alloc::Global;
use wdf_lint::{FindingList, LintAnswer, lint};
use wdf_parse::{TEXT_LIMIT, parse};
use wdf_plan::resolve;

/// A finding: its line, its rule, and the lines of its path.
#[derive(Clone, Copy)]
pub struct Due {
    pub line: u32,
    pub rule: u8,
    pub path: &'static [u32],
}

struct Case {
    what: &'static str,
    text: &'static str,
    due: &'static [Due],
}

/// What is checked of the plan of a text, where it has one.
pub fn checked(alloc: Global, text: &[u8]) -> Option<LintAnswer> {
    if text.len() > TEXT_LIMIT {
        return None;
    }
    let scene = parse(alloc, text).ok()?;
    let plan = resolve(alloc, &scene).ok()?;
    lint(alloc, &plan).ok()
}

fn has(found: &FindingList, due: &[Due]) -> bool {
    if found.len() != due.len() {
        return false;
    }
    for (k, d) in due.iter().enumerate() {
        if k >= found.len()
            || found.line(k) != d.line
            || found.rule(k) != d.rule
            || found.path(k) != d.path
        {
            return false;
        }
    }
    true
}

/// Whether a check has exactly these findings.
pub fn answers(answer: Option<LintAnswer>, due: &[Due]) -> bool {
    match answer {
        None => false,
        Some(LintAnswer::Clean) => due.is_empty(),
        Some(LintAnswer::Findings(found)) => !due.is_empty() && has(&found, due),
    }
}

static CASES: [Case; 20] = [
    Case {
        what: "a request is unmarked before it is completed",
        text: "cpus 1\nlimit 100\nobjects 16\ndevice D working\nqueue Q sequential\ndefault\non EvtIoRead\ncall m = WdfRequestMarkCancelableEx request\ncall u = WdfRequestUnmarkCancelable request\nif ( u == SUCCESS )\ncall WdfRequestComplete request SUCCESS\nend\nend\non EvtRequestCancel\ncall WdfRequestComplete request CANCELLED\nend\nend\nend\n",
        due: &[],
    },
    Case {
        what: "it is completed whatever the unmark answers",
        text: "cpus 1\nlimit 100\nobjects 16\ndevice D working\nqueue Q sequential\ndefault\non EvtIoRead\ncall m = WdfRequestMarkCancelableEx request\ncall u = WdfRequestUnmarkCancelable request\ncall WdfRequestComplete request SUCCESS\nend\non EvtRequestCancel\ncall WdfRequestComplete request CANCELLED\nend\nend\nend\n",
        due: &[Due {
            line: 10,
            rule: 4,
            path: &[8, 9, 10],
        }],
    },
    Case {
        what: "it is completed twice",
        text: "cpus 1\nlimit 100\nobjects 16\ndevice D working\nqueue Q sequential\ndefault\non EvtIoRead\ncall WdfRequestComplete request SUCCESS\ncall WdfRequestComplete request SUCCESS\nend\nend\nend\n",
        due: &[Due {
            line: 9,
            rule: 4,
            path: &[8, 9],
        }],
    },
    Case {
        what: "a test of the mark's answer decides",
        text: "cpus 1\nlimit 100\nobjects 16\ndevice D working\nqueue Q sequential\ndefault\non EvtIoRead\ncall m = WdfRequestMarkCancelableEx request\nif ( m == SUCCESS )\nreturn SUCCESS\nend\ncall WdfRequestComplete request m\nend\nend\nend\n",
        due: &[],
    },
    Case {
        what: "the same test the other way round doesn't",
        text: "cpus 1\nlimit 100\nobjects 16\ndevice D working\nqueue Q sequential\ndefault\non EvtIoRead\ncall m = WdfRequestMarkCancelableEx request\nif ( SUCCESS == m )\nreturn SUCCESS\nend\ncall WdfRequestComplete request m\nend\nend\nend\n",
        due: &[Due {
            line: 12,
            rule: 5,
            path: &[8, 9, 12],
        }],
    },
    Case {
        what: "a body runs again",
        text: "cpus 1\nlimit 100\nobjects 16\ndevice D working\nqueue Q sequential\ndefault\non EvtIoRead\nrepeat 2\ncall WdfRequestComplete request SUCCESS\nend\nend\nend\nend\n",
        due: &[Due {
            line: 9,
            rule: 4,
            path: &[8, 9, 8, 9],
        }],
    },
    Case {
        what: "of two paths the shorter",
        text: "cpus 1\nlimit 100\nobjects 16\ndevice D working\nqueue Q sequential\ndefault\non EvtIoRead\nif length\nif code\nlet a = 1\nend\nelse\nlet a = 1\nlet b = 1\nend\nlet a = 0\ncall WdfRequestComplete a SUCCESS\nend\nend\nend\n",
        due: &[Due {
            line: 17,
            rule: 4,
            path: &[8, 9, 16, 17],
        }],
    },
    Case {
        what: "of two paths of one length the lesser, which the first answer of the mark doesn't take",
        text: "cpus 1\nlimit 100\nobjects 16\ndevice D working\nqueue Q sequential\ndefault\non EvtIoRead\ncall m = WdfRequestMarkCancelableEx request\nif ( m == CANCELLED )\nlet a = 1\nelse\nlet a = 1\nend\ncall WdfRequestComplete a SUCCESS\nend\nend\nend\n",
        due: &[Due {
            line: 14,
            rule: 4,
            path: &[8, 9, 10, 14],
        }],
    },
    Case {
        what: "a request that couldn't be forwarded is completed",
        text: "cpus 1\nlimit 100\nobjects 16\ndevice D working\nqueue Q sequential\ndefault\non EvtIoRead\ncall f = WdfRequestForwardToIoQueue request R\nif ( f != SUCCESS )\ncall WdfRequestComplete request f\nend\nend\nend\nqueue R manual\nend\nend\n",
        due: &[],
    },
    Case {
        what: "one that was forwarded is completed too",
        text: "cpus 1\nlimit 100\nobjects 16\ndevice D working\nqueue Q sequential\ndefault\non EvtIoRead\ncall f = WdfRequestForwardToIoQueue request R\nif ( f != INVALID_DEVICE_REQUEST )\ncall WdfRequestComplete request f\nend\nend\nend\nqueue R manual\nend\nend\n",
        due: &[Due {
            line: 10,
            rule: 4,
            path: &[8, 9, 10],
        }],
    },
    Case {
        what: "a lock is taken twice, its variable written, and the callback ends with it",
        text: "cpus 1\nlimit 100\nobjects 16\ndevice D working\nqueue Q sequential\ndefault\non EvtIoRead\ncall lock = GetContext device 0\ncall WdfSpinLockAcquire lock\ncall b = WdfSpinLockAcquire lock\nlet lock = 0\ncall WdfSpinLockRelease lock\nend\nend\nend\n",
        due: &[
            Due {
                line: 7,
                rule: 13,
                path: &[8, 9, 10, 11, 12, 7],
            },
            Due {
                line: 10,
                rule: 11,
                path: &[8, 9, 10],
            },
            Due {
                line: 12,
                rule: 12,
                path: &[8, 9, 10, 11, 12],
            },
        ],
    },
    Case {
        what: "a lock is taken and given back",
        text: "cpus 1\nlimit 100\nobjects 16\ndevice D working\nqueue Q sequential\ndefault\non EvtIoRead\ncall lock = GetContext device 0\ncall WdfSpinLockAcquire lock\nspend 3\ncall WdfSpinLockRelease lock\ncall WdfRequestComplete request SUCCESS\nend\nend\nend\n",
        due: &[],
    },
    Case {
        what: "a return on the way leaves the lock",
        text: "cpus 1\nlimit 100\nobjects 16\ndevice D working\nqueue Q sequential\ndefault\non EvtIoRead\ncall lock = GetContext device 0\ncall WdfSpinLockAcquire lock\nif length\nreturn SUCCESS\nend\ncall WdfSpinLockRelease lock\nend\nend\nend\n",
        due: &[Due {
            line: 11,
            rule: 13,
            path: &[8, 9, 10, 11],
        }],
    },
    Case {
        what: "a marked request is asked, marked again and completed",
        text: "cpus 1\nlimit 100\nobjects 16\ndevice D working\nqueue Q sequential\ndefault\non EvtIoRead\ncall m = WdfRequestMarkCancelableEx request\nif ( m == SUCCESS )\ncall c = WdfRequestIsCanceled request\ncall m = WdfRequestMarkCancelableEx request\ncall WdfRequestComplete request SUCCESS\ncall u = WdfRequestUnmarkCancelable request\nif ( u == SUCCESS )\ncall WdfRequestComplete request SUCCESS\nend\nend\nend\nend\nend\n",
        due: &[
            Due {
                line: 10,
                rule: 4,
                path: &[8, 9, 10],
            },
            Due {
                line: 11,
                rule: 7,
                path: &[8, 9, 10, 11],
            },
            Due {
                line: 12,
                rule: 5,
                path: &[8, 9, 10, 11, 12],
            },
        ],
    },
    Case {
        what: "two rules at one statement, by two ways",
        text: "cpus 1\nlimit 100\nobjects 16\ndevice D working\nqueue Q sequential\ndefault\non EvtIoRead\ncall m = WdfRequestMarkCancelableEx request\nif ( m != SUCCESS )\ncall WdfRequestComplete request m\nend\ncall WdfRequestComplete request SUCCESS\nend\nend\nend\n",
        due: &[
            Due {
                line: 12,
                rule: 4,
                path: &[8, 9, 10, 12],
            },
            Due {
                line: 12,
                rule: 5,
                path: &[8, 9, 12],
            },
        ],
    },
    Case {
        what: "two callbacks have findings",
        text: "cpus 1\nlimit 100\nobjects 16\ndevice D working\nqueue Q sequential\ndefault\non EvtIoWrite\ncall WdfRequestRequeue request\ncall WdfRequestIsCanceled request\nend\non EvtIoRead\ncall WdfRequestRequeue request\ncall WdfRequestUnmarkCancelable request\nend\nend\nend\n",
        due: &[
            Due {
                line: 9,
                rule: 4,
                path: &[8, 9],
            },
            Due {
                line: 13,
                rule: 4,
                path: &[12, 13],
            },
        ],
    },
    Case {
        what: "a stop is acknowledged twice, and gives the request back",
        text: "cpus 1\nlimit 100\nobjects 16\ndevice D working\nqueue Q sequential\nscope queue\ndefault\non EvtIoStop\ncall WdfRequestStopAcknowledge request 0\ncall WdfRequestStopAcknowledge request 0\ncall WdfRequestStopAcknowledge request 1\nend\nend\nend\n",
        due: &[
            Due {
                line: 10,
                rule: 8,
                path: &[9, 10],
            },
            Due {
                line: 11,
                rule: 4,
                path: &[9, 10, 11],
            },
        ],
    },
    Case {
        what: "a stop is acknowledged on a queue with no scope",
        text: "cpus 1\nlimit 100\nobjects 16\ndevice D working\nqueue Q sequential\ndefault\non EvtIoStop\nlet a = 0\ncall WdfRequestStopAcknowledge request a\ncall WdfRequestStopAcknowledge request 0\ncall WdfRequestStopAcknowledge request 0\nend\nend\nend\n",
        due: &[
            Due {
                line: 9,
                rule: 4,
                path: &[8, 9],
            },
            Due {
                line: 10,
                rule: 4,
                path: &[8, 9, 10],
            },
            Due {
                line: 11,
                rule: 4,
                path: &[8, 9, 10, 11],
            },
        ],
    },
    Case {
        what: "a stop is acknowledged in a plan that sends, and a sent request is asked",
        text: "cpus 1\nlimit 100\nobjects 16\ndevice D working\nqueue Q sequential\nscope queue\ndefault\non EvtIoStop\ncall WdfRequestStopAcknowledge request 0\nend\non EvtIoRead\ncall s = WdfRequestSend request Below 0\nif ( s == 0 )\ncall WdfRequestComplete request UNSUCCESSFUL\nelse\ncall WdfRequestIsCanceled request\nend\nend\nend\ntarget Below 1 SUCCESS 2\non EvtRequestCompletion\ncall WdfRequestComplete request status\nend\nend\nend\n",
        due: &[
            Due {
                line: 9,
                rule: 4,
                path: &[9],
            },
            Due {
                line: 16,
                rule: 4,
                path: &[12, 13, 16],
            },
        ],
    },
    Case {
        what: "an interrupt's lock is taken in its service routine, given back twice, named by a variable, and kept",
        text: "cpus 1\nlimit 100\nobjects 16\ndevice D\ninterrupt Line 5\non EvtInterruptIsr\ncall WdfInterruptAcquireLock self\nend\non EvtInterruptDpc\ncall WdfInterruptAcquireLock self\ncall WdfInterruptReleaseLock Line\ncall WdfInterruptReleaseLock Line\nlet i = self\ncall WdfInterruptAcquireLock i\nend\nend\non EvtDeviceD0Entry\ncall WdfInterruptAcquireLock Line\nif length\ncall WdfInterruptReleaseLock Line\nend\nend\nend\n",
        due: &[
            Due {
                line: 7,
                rule: 11,
                path: &[7],
            },
            Due {
                line: 12,
                rule: 12,
                path: &[10, 11, 12],
            },
            Due {
                line: 14,
                rule: 11,
                path: &[10, 11, 12, 13, 14],
            },
            Due {
                line: 17,
                rule: 13,
                path: &[18, 19, 17],
            },
        ],
    },
];

#[test]
fn each_text_has_the_findings_that_its_walks_have(rt: HostRuntime) {
    for case in &CASES {
        assert!(rt;
            answers(checked(rt.alloc(), case.text.as_bytes()), case.due),
            "{}",
            case.what
        );
    }
}
