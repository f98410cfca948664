//! What is proved of words as definitions.

ghost use Rattle.std.specs.Prelude.{◌≡◌, true, false, [], ◌∷◌, map, codes};
ghost use Rattle.clap.specs.Words.{fault_of};
ghost use Rattle.clap.specs.declared.error.kind.ErrorKind.{ErrorKind};
ghost use Rattle.rx_dump.specs.declared.judging.Labels.{Labels};
ghost use Rattle.rx_script.specs.declared.Form.{Form};
ghost use Rattle.rx_cli.specs.declared.request.Order.{Order};
ghost use Rattle.rx_cli.specs.declared.request.Asked.{Asked};
ghost use Rattle.rx_cli.specs.Words.{Orders, rxbook, greatest_storm, storms_beyond};
ghost use Rattle.rx_cli.specs.Words.{questions, answers, file_words, refusals_of_files};

/// The program's name alone orders a report, and so it does with the word `run`; with `run --dump` it
/// orders a dump, with `run --names` and with both flags the dump with its names, with `run --trace`, with or without
/// `--names`, a trace, each strict with `--strict`, and with the word `audit` an audit, which tells names with `audit --names`. The words `explain`,
/// `picture` and `live` order what they say. With the word `storm` it orders a storm of 4 sources, 3 workers and 100 items, or of the numbers that its options give; one
/// beyond its range is refused. The words `--help` and `--version` ask for help and for the version, and the name of
/// a file is refused.
pub fn words_have_their_orders()
    ensures alone { Orders (codes "rxbook" ∷ []) (Order.Say (Asked.Run Form.Report false)) }
    ensures with_run { Orders (codes "rxbook" ∷ codes "run" ∷ []) (Order.Say (Asked.Run Form.Report false)) }
    ensures with_dump { Orders (codes "rxbook" ∷ codes "run" ∷ codes "--dump" ∷ []) (Order.Say (Asked.Run Form.Dump false)) }
    ensures with_names { Orders (codes "rxbook" ∷ codes "run" ∷ codes "--names" ∷ []) (Order.Say (Asked.Run Form.NamedDump false)) }
    ensures with_both { Orders (codes "rxbook" ∷ codes "run" ∷ codes "--dump" ∷ codes "--names" ∷ [])
        (Order.Say (Asked.Run Form.NamedDump false)) }
    ensures with_trace { Orders (codes "rxbook" ∷ codes "run" ∷ codes "--trace" ∷ []) (Order.Say (Asked.Trace false)) }
    ensures with_trace_and_names { Orders (codes "rxbook" ∷ codes "run" ∷ codes "--names" ∷ codes "--trace" ∷ [])
        (Order.Say (Asked.Trace false)) }
    ensures with_strict { Orders (codes "rxbook" ∷ codes "run" ∷ codes "--strict" ∷ []) (Order.Say (Asked.Run Form.Report true)) }
    ensures with_strict_trace { Orders (codes "rxbook" ∷ codes "run" ∷ codes "--trace" ∷ codes "--strict" ∷ [])
        (Order.Say (Asked.Trace true)) }
    ensures with_audit { Orders (codes "rxbook" ∷ codes "audit" ∷ []) (Order.Say (Asked.Audit Labels.Numbers)) }
    ensures with_audit_names { Orders (codes "rxbook" ∷ codes "audit" ∷ codes "--names" ∷ [])
        (Order.Say (Asked.Audit Labels.Names)) }
    ensures with_explain { Orders (codes "rxbook" ∷ codes "explain" ∷ []) (Order.Say Asked.Explain) }
    ensures with_picture { Orders (codes "rxbook" ∷ codes "picture" ∷ []) (Order.Say Asked.Picture) }
    ensures with_live { Orders (codes "rxbook" ∷ codes "live" ∷ []) Order.Live }
    ensures with_storm { Orders (codes "rxbook" ∷ codes "storm" ∷ []) (Order.Storm 4 3 100) }
    ensures with_greatest { Orders greatest_storm (Order.Storm 64 16 10000) }
    ensures beyond { map (fault_of rxbook) storms_beyond ≡ map (λ _. ErrorKind.ValueValidation ∷ []) storms_beyond }
    ensures help { map (fault_of rxbook) questions ≡ answers }
    ensures files { map (fault_of rxbook) file_words ≡ refusals_of_files }
{}
