//! The message of each link after a round: whole inside a pair, and else cut to the steps that are sent.
ghost use Rattle.std.specs.Prelude.{◌≡◌, length, map};
ghost use Rattle.pals_model.specs.DesignRules.{IsDesign};
ghost use Rattle.sync_product.specs.proof.ProductSizes.{stage_size, stage_sizes, message_sizes};
ghost use Rattle.plant_fuse.specs.proof.PartnersAndPairLinks.{is_inside};
ghost use Rattle.plant_fuse.specs.proof.Messages.{sent_count, sent_on};
ghost use Rattle.plant_fuse.specs.proof.DesignTables.{AreTables};

use crate::design_tables::Tables;
use pals_base::{ItemList, NodeNo, Tuple};
use pals_model::{Design, Link};
use sync_product::component_stage::Stage;
use sync_product::tuple_columns::write_port_tuple;

/// Writes the message of each link, from the rows of its source: whole inside a pair, and else cut.
pub fn send_all(design: &Design, tables: &Tables, stages: &[Stage], messages: &mut ItemList<Tuple>)
    requires tables { AreTables design.now tables.now.pairs tables.now }
    requires stages { map stage_size stages.now ≡ stage_sizes design.now }
    requires messages { map (λ tuple. length tuple) messages.old ≡ message_sizes design.now }
    ensures sent { messages.new ≡ map (sent_on tables.now.pairs stages.now) design.now.links }
    ensures sizes { map (λ tuple. length tuple) messages.new ≡ message_sizes design.now }
    ensures rules { IsDesign design.now }
{
    for (number, link) in design.links().iter().enumerate() {
        let source = link.source.0 as usize;
        let inside = is_inside(tables.partners[source], link);
        let stage = &stages[source];
        let count = sent_count(inside, stage);
        let message = &mut messages[number];
        write_port_tuple(
            message,
            stage.rows.as_slice(),
            link.out_port as usize,
            count,
        );
    }
}

// Whether a link goes to the partner of its source.
fn is_inside(partner: Option<NodeNo>, link: &Link) -> bool
    ensures { result ≡ is_inside partner link.now }
{
    match partner {
        None => false,
        Some(partner) => partner.0 == link.target.0,
    }
}

// How many places of a tuple are sent: all of them inside a pair.
fn sent_count(inside: bool, stage: &Stage) -> usize
    ensures { result ≡ sent_count inside stage.now }
{
    if inside { stage.rows.len() } else { stage.sent }
}
