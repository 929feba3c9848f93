//! Small programs as users of the library write them. Each line of standard input is the name of
//! one, which is run. The stored output was worked out without a triangulation, by
//! `checks/examples.py`.
#![tactic(auto)]

mod castle;
mod facilities;
mod harbour;
mod hill;
mod navigation;
mod parcels;
mod terrain;
mod tolls;
mod walls;

fn run(rt: &HostRuntime, name: &str) -> anyhow::Result<()> {
    match name {
        "hill" => hill::run(rt),
        "terrain" => terrain::run(rt),
        "facilities" => facilities::run(rt),
        "navigation" => navigation::run(rt),
        "parcels" => parcels::run(rt),
        "walls" => walls::run(rt),
        "tolls" => tolls::run(rt),
        "harbour" => harbour::run(rt),
        "castle" => castle::run(rt),
        _ => Ok(println!(rt; "no such example")?),
    }
}

fn main(rt: HostRuntime) -> anyhow::Result<()> {
    for line in rt.lines(rt.alloc()) {
        let name = line?;
        println!(rt; "# {name}")?;
        run(&rt, name.as_str())?;
    }
    Ok(())
}
